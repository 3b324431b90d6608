// A caller of `map_records::fill`: it lends a part of a local array of records, and hands the array back by value with the answer.
// `lend` makes the reference to structs, and is thin. Callers of `fill` pass records by value.
#![tactic(auto)]

ghost use Rattle.std.specs.Prelude.{◌≡◌, ◌≤◌, replicate};
ghost use Rattle.probe_records.specs.Lent.{afterwards, after_fill, lent_of};

use map::MapSays;
use map_answer::Track;
use plate::Refusal;

// The answer of a call, and all records as it left them.
#[derive(Clone, Copy)]
pub struct After {
    pub answer: Result<MapSays, Refusal>,
    pub records: [Track; 80],
}

fn left(answer: Result<MapSays, Refusal>, records: [Track; 80]) -> After
    ensures { result ≡ afterwards answer records }
{
    After { answer, records }
}

// The first n of the records are lent.
fn lend(mut records: [Track; 80], n: usize, s: &[u8], at: usize) -> After
    requires { n ≤ 80 }
    ensures { result ≡ after_fill records n s.now at }
{
    let answer = map_records::fill(&mut records[..n], s, at);
    left(answer, records)
}

// How many are lent where n are asked for: there are 80.
fn lent_of(n: usize) -> usize
    ensures { (result ≡ lent_of n) × (result ≤ 80) }
{
    if n < 80 { n } else { 80 }
}

// Reads the map packet at a position into n lent records, the first of 80 that are all equal at the start.
pub fn fill(start: Track, n: usize, s: &[u8], at: usize) -> After
    ensures { result ≡ after_fill (replicate 80 start) (lent_of n) s.now at }
{
    let records = [start; 80];
    lend(records, lent_of(n), s, at)
}
