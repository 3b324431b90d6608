// What the probe lends: a room that is filled before the call, and numbers from a request's bytes.
#![tactic(auto)]

ghost use Rattle.std.specs.Prelude.{◌≤◌, length};

// Byte i is i * 7 + 3 modulo 256.
pub fn prefill(room: &mut [u8]) {
    for (i, b) in room.iter_mut().enumerate() {
        *b = ((i % 256 * 7 + 3) % 256) as u8;
    }
}

// The numbers of 8 bytes, least significant first; how many there are.
pub fn words(list: &mut [u64], s: &[u8]) -> usize
    ensures { result ≤ length list.old }
{
    let n = (s.len() / 8).min(list.len());
    for i in 0..n {
        list[i] = number::le_at(s, 8 * i, 8) as u64;
    }
    n
}
