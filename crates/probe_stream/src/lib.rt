// The probe's answers of a whole stream, and of its seek book.
#![tactic(auto)]

pub fn check(out: &mut [u8], s: &[u8]) -> usize {
    probe_line::answer(out, 0, b"ok", stream::check(s))
}

pub fn seek(out: &mut [u8], s: &[u8], track: u64, field: u64) -> usize {
    probe_line::answer(out, 0, b"at", stream::seek(s, track, field))
}

fn build_in(out: &mut [u8], room: &mut [u8], s: &[u8]) -> usize {
    probe_room::prefill(room);
    let k = probe_line::answer(out, 0, b"records", book_builder::build(room, s));
    probe_line::hex(out, k, room)
}

// None where the room is over 65,536 bytes: the request is malformed.
// It is called, so that its room is on the stack for these requests alone.
#[inline(never)]
pub fn build(out: &mut [u8], s: &[u8], n: usize) -> Option<usize> {
    if 65536 < n {
        return None;
    }
    let mut room = [0u8; 65536];
    Some(build_in(out, &mut room[..n], s))
}

pub fn lookup(out: &mut [u8], s: &[u8], track: u64, field: u64) -> usize {
    probe_line::answer(out, 0, b"at", book::lookup(s, track, field))
}
