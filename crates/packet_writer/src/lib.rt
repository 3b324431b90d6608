// What the writers share: a packet's header, and the room at a place of the caller's outgoing buffer.
// `put_header` asks for its sixteen bytes: it serves the writers, whose own functions take every input.
#![tactic(auto)]

ghost use Rattle.std.specs.Prelude.{◌≡◌, ◌-◌, ◌≤◌, length, ltb};
ghost use Rattle.std.proofs.lemmas.List.Edits.{sets};
ghost use Rattle.packet_writer.specs.Write.{header_of};

// Whether a buffer of a size has fewer bytes from a place on than a packet takes; beyond its end it has none.
pub fn lacks_room(size: usize, at: usize, len: usize) -> bool
    ensures { result ≡ ltb (size - at) len }
{
    size.saturating_sub(at) < len
}

// Writes a packet header at the start of some bytes.
pub fn put_header(out: &mut [u8], packet_type: u8, len: usize)
    requires { 16 ≤ length out.old }
    ensures { out.new ≡ sets out.old 0 (header_of packet_type len) }
{
    number::put_be(out, 0, 1, 5);
    out[5] = packet_type;
    number::put_be(out, 6, len, 4);
    number::put_be(out, 10, 0, 4);
    number::put_be(out, 14, 0xE1E2, 2);
}
