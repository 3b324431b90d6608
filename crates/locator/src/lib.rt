// The field locator table: its step and count, and the position in the stream for a distance in fields.
// The distance counts from the field of entry 0, which is the first field and one step (Table 14): for field N a caller gives N less that.
// `table` and `position_in` take the bytes of one packet whose header was read, up to its length.
#![tactic(auto)]

ghost use Rattle.std.specs.Prelude.{◌≡◌};
ghost use Rattle.packet.specs.Packet.{packet_at};
ghost use Rattle.locator.specs.Locator.{table_of, table_at, position_of, position_at};

use packet::Packet;
use plate::{Fault, Refusal};

// Fields per entry, and the number of entries.
#[derive(Clone, Copy, PartialEq, Eq, Debug)]
pub struct Locator {
    pub step: usize,
    pub count: usize,
}

// The table in a packet's bytes.
#[tactic(auto, unfolding(crate::specs::Locator::table_of))]
pub fn table(p: &[u8]) -> Result<Locator, Refusal>
    ensures { result ≡ table_of p.now }
{
    let payload = number::left(p, 16);
    if payload < 8 {
        return Err(plate::refuse(Fault::Overhang, 16));
    }
    let step = number::le4(p, 16);
    let count = number::le4(p, 20);
    if 1000 < count {
        return Err(plate::refuse(Fault::LocatorCount, 16));
    }
    if step == 0 {
        return Err(plate::refuse(Fault::LocatorStep, 16));
    }
    if payload < 8 + 4 * count {
        return Err(plate::refuse(Fault::Overhang, 16));
    }
    Ok(Locator { step, count })
}

// The FLT packet at a position: refusals 1 to 6.
fn flt_at(s: &[u8], at: usize) -> Result<Packet, Refusal>
    ensures { result ≡ packet_at s.now at 0xFC }
{
    packet::of_type(s, at, packet::FLT)
}

// The table of the packet at a position: refusals 1 to 6 first.
#[tactic(auto, unfolding(crate::specs::Locator::table_at))]
pub fn read(s: &[u8], at: usize) -> Result<Locator, Refusal>
    ensures { result ≡ table_at s.now at }
{
    let p = flt_at(s, at)?;
    table(&s[at..at + p.len])
}

// The position for a distance, by the table in a packet's bytes.
#[tactic(auto, unfolding(crate::specs::Locator::position_of))]
pub fn position_in(p: &[u8], distance: u64) -> Result<u64, Refusal>
    ensures { result ≡ position_of p.now distance }
{
    let t = table(p)?;
    let n = distance as usize / t.step;
    if t.count <= n {
        return Err(plate::refuse(Fault::NotThere, 0));
    }
    let entry = number::le4(p, 24 + 4 * n);
    Ok((1024 * entry) as u64)
}

// The position for a distance, by the table of the packet at a position: refusals 1 to 6 first.
#[tactic(auto, unfolding(crate::specs::Locator::position_at))]
pub fn position(s: &[u8], at: usize, distance: u64) -> Result<u64, Refusal>
    ensures { result ≡ position_at s.now at distance }
{
    let p = flt_at(s, at)?;
    position_in(&s[at..at + p.len], distance)
}
