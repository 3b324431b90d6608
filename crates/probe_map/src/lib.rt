// The probe's answer of the map reader with n lent records, and the records after it.
#![tactic(auto)]

use map::MapSays;
use map_answer::{Code, Track};
use map_aspect::Aspect;
use map_items::Part;
use plate::Refusal;

const NOWHERE: Part = Part { at: 0, len: 0 };

// What each record holds before the call: no map gives it.
fn start() -> Track {
    Track {
        id: 255,
        media_type: 255,
        rate: Code::Is(255),
        lines: Code::Is(255),
        fields: Code::Is(255),
        version: Some(255),
        name: Some(NOWHERE),
        aux: Some(NOWHERE),
        mpeg: Some(NOWHERE),
        aspect: Aspect::SixteenByNine,
    }
}

// The reader by value gives the same record.
fn held(out: &mut [u8], k: usize, s: &[u8], at: usize, i: usize, t: Track) -> usize {
    match map::track(s, at, i) {
        Ok(u) if u == t => k,
        _ => probe_line::say(out, k, b" strayed"),
    }
}

// Record i after the call: whether it still is what it was, or what it holds.
fn left(out: &mut [u8], k: usize, s: &[u8], at: usize, i: usize, t: Track) -> usize {
    if t == start() {
        return probe_line::say(out, k, b" kept");
    }
    let k = probe_show::record(out, k, t);
    held(out, k, s, at, i, t)
}

// The lent records after the call.
fn records(out: &mut [u8], from: usize, s: &[u8], at: usize, lent: &[Track]) -> usize {
    let mut k = from;
    for (i, &t) in lent.iter().enumerate() {
        k = left(out, k, s, at, i, t);
    }
    k
}

fn words(out: &mut [u8], a: Result<MapSays, Refusal>) -> usize {
    match a {
        Ok(m) => probe_show::says(out, m.count, m.material),
        Err(r) => probe_line::refused(out, 0, r),
    }
}

// None where more than 80 records are asked for: the request is malformed.
// It is called, so that its room is on the stack for these requests alone.
#[inline(never)]
pub fn map(out: &mut [u8], s: &[u8], at: usize, n: usize) -> Option<usize> {
    if 80 < n {
        return None;
    }
    let after = probe_records::fill(start(), n, s, at);
    let k = words(out, after.answer);
    Some(records(out, k, s, at, &after.records[..n]))
}
