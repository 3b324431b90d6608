// The writer of field locator tables: an FLT packet at a place of the caller's outgoing buffer.
// Step and offsets come 64 bits wide; what does not fit its 32 bits is refused, never cut. A refused call changes nothing.
#![tactic(auto)]

ghost use Rattle.std.specs.Prelude.{◌≡◌, ◌+◌, ◌*◌, ◌≤◌, length};
ghost use Rattle.std.proofs.lemmas.List.Edits.{sets};
ghost use Rattle.locator_writer.specs.Write.{all_fit, may_write, entry_bytes, locator_packet, locator_answer, locator_written_in};

use plate::{Fault, Refusal};

// Whether every offset fits its four bytes.
fn all_fit(offsets: &[u64]) -> bool
    ensures { result ≡ all_fit offsets.now }
{
    offsets.iter().all(|n| *n <= 0xFFFF_FFFF)
}

// Whether a table of this step and these offsets may be written: else 24.
#[tactic(auto, unfolding(crate::specs::Write::may_write))]
fn may_write(step: u64, offsets: &[u64]) -> bool
    ensures { result ≡ may_write step offsets.now }
{
    step != 0 && step <= 0xFFFF_FFFF && offsets.len() <= 1000 && all_fit(offsets)
}

// Writes the entries, from a place on.
fn put_entries(out: &mut [u8], at: usize, offsets: &[u64])
    requires { at + 4 * length offsets.now ≤ length out.old }
    ensures { out.new ≡ sets out.old at (entry_bytes offsets.now) }
{
    for (k, n) in offsets.iter().enumerate() {
        number::put_le(out, at + 4 * k, *n as usize, 4);
    }
}

// Writes the packet at the start of the buffer.
fn put_packet(out: &mut [u8], step: u64, offsets: &[u64])
    requires { 24 + 4 * length offsets.now ≤ length out.old }
    ensures { out.new ≡ sets out.old 0 (locator_packet step offsets.now) }
{
    packet_writer::put_header(out, packet::FLT, 24 + 4 * offsets.len());
    number::put_le(out, 16, step as usize, 4);
    number::put_le(out, 20, offsets.len(), 4);
    put_entries(out, 24, offsets);
}

// Writes the packet at a place of the buffer, offsets in units of 1,024 bytes: refusals 24 and 13, in this order.
pub fn write(out: &mut [u8], at: usize, step: u64, offsets: &[u64]) -> Result<usize, Refusal>
    ensures { (result ≡ locator_answer out.old at step offsets.now) × (out.new ≡ locator_written_in out.old at step offsets.now) }
{
    if !may_write(step, offsets) {
        return Err(plate::refuse(Fault::Barred, 0));
    }
    let len = 24 + 4 * offsets.len();
    if packet_writer::lacks_room(out.len(), at, len) {
        return Err(plate::refuse(Fault::Room, 0));
    }
    put_packet(&mut out[at..], step, offsets);
    Ok(len)
}
