// The probe's answers of the writers of a locator table and a map, and the lent room after them.
#![tactic(auto)]

// Each function here gives none where the request is malformed: a room over 65,536 bytes, words that are not whole, or a byte string that cannot be read.

fn locator_in(out: &mut [u8], room: &mut [u8], at: usize, step: u64, offsets: &[u64]) -> usize {
    probe_room::prefill(room);
    let a = locator_writer::write(room, at, step, offsets);
    let k = probe_line::answer(out, 0, b"length", a);
    probe_line::hex(out, k, room)
}

// It is called, so that its room is on the stack for these requests alone.
#[inline(never)]
pub fn locator(out: &mut [u8], s: &[u8], at: usize, n: usize, step: u64) -> Option<usize> {
    if 65536 < n || s.len() % 8 != 0 {
        return None;
    }
    let mut offsets = [0u64; 8192];
    let m = probe_room::words(&mut offsets, s);
    let mut room = [0u8; 65536];
    Some(locator_in(out, &mut room[..n], at, step, &offsets[..m]))
}

fn map_in(
    out: &mut [u8],
    room: &mut [u8],
    at: usize,
    text: &[u8],
    material: &[u64],
    tracks: &[u64],
) -> usize {
    probe_room::prefill(room);
    let a = map_writer::write(room, at, text, material, tracks);
    let k = probe_line::answer(out, 0, b"length", a);
    probe_line::hex(out, k, room)
}

pub fn map(out: &mut [u8], text: &[u8], s: &[u8], t: &[u8], at: usize, n: usize) -> Option<usize> {
    if s.len() % 8 != 0 || t.len() % 8 != 0 || 65536 < n {
        return None;
    }
    let mut material = [0u64; 8192];
    let i = probe_room::words(&mut material, s);
    let mut tracks = [0u64; 8192];
    let j = probe_room::words(&mut tracks, t);
    let mut room = [0u8; 65536];
    Some(map_in(out, &mut room[..n], at, text, &material[..i], &tracks[..j]))
}

// The tracks' words are still to be read.
fn three(out: &mut [u8], x: u64, y: u64, a: &[u8], b: &[u8]) -> Option<usize> {
    let mut c = [0u8; 65536];
    let c = probe_request::string(&mut c)?;
    map(out, a, b, c, x as usize, y as usize)
}

// The map writer: the material's words and the tracks' are still to be read.
// It is called, so that its room is on the stack for these requests alone.
#[inline(never)]
pub fn map_request(out: &mut [u8], x: u64, y: u64, a: &[u8]) -> Option<usize> {
    let mut b = [0u8; 65536];
    let b = probe_request::string(&mut b)?;
    three(out, x, y, a, b)
}
