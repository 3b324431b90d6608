// The map reader into lent track records: one record for each listed track, in map order.
// `fill` takes a slice of structs, and is thin: what it answers and what each record holds are functions by value.
#![tactic(auto)]

ghost use Rattle.std.specs.Prelude.{◌≡◌, slice_get};
ghost use Rattle.map_records.specs.Fill.{records_at, with_room, answer_for, Filled};

use map::MapSays;
use map_answer::Track;
use map_items::Part;
use plate::{Fault, Refusal};

// The map's answer, or 13 where there is room for fewer records than it lists tracks.
fn answer_for(s: &[u8], at: usize, room: usize) -> Result<MapSays, Refusal>
    ensures { result ≡ answer_for s.now at room }
{
    let m = map::read(s, at)?;
    if room < m.count {
        return Err(plate::refuse(Fault::Room, 0));
    }
    Ok(m)
}

// The record of the k-th listed track, from 0, of the map at a position, if there is one.
fn record_at(s: &[u8], at: usize, k: usize) -> Option<Track>
    ensures { result ≡ slice_get (records_at s.now at) k }
{
    match packet::of_type(s, at, packet::MAP) {
        Ok(w) => map::kth_of(&s[at..at + w.len], k),
        Err(_) => None,
    }
}

// Reads the map packet at a position into lent records: refusals 1 to 6, the map's own, then 13. A refused call leaves every record, and
// records past the last listed track stay. The answer is the map's: the count of listed tracks, the material name and numbers.
pub fn fill(recs: &mut [Track], s: &[u8], at: usize) -> Result<MapSays, Refusal>
    ensures { Filled recs.old s.now at result recs.new }
{
    let says = answer_for(s, at, recs.len())?;
    for i in 0..says.count {
        if let Some(track) = record_at(s, at, i) {
            recs[i] = track;
        }
    }
    Ok(says)
}
