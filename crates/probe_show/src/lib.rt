// The probe's words for what a map says: numbers, codes, places, the material and a track's record.
#![tactic(auto)]

use map_answer::{Code, Material, Track};
use map_aspect::Aspect;
use map_items::Part;

fn value(out: &mut [u8], at: usize, v: Option<u32>) -> usize {
    match v {
        Some(n) => probe_line::figure(out, at, n as u64),
        None => probe_line::say(out, at, b" -"),
    }
}

fn part(out: &mut [u8], at: usize, p: Option<Part>) -> usize {
    match p {
        Some(p) => {
            let k = probe_line::figure(out, at, p.at as u64);
            probe_line::figure(out, k, p.len as u64)
        }
        None => probe_line::say(out, at, b" -"),
    }
}

fn code(out: &mut [u8], at: usize, c: Code) -> usize {
    match c {
        Code::Is(n) => probe_line::figure(out, at, n as u64),
        Code::NotApplicable => probe_line::say(out, at, b" -1"),
        Code::NotAvailable => probe_line::say(out, at, b" -2"),
        Code::Absent => probe_line::say(out, at, b" -"),
    }
}

fn aspect(out: &mut [u8], at: usize, a: Aspect) -> usize {
    match a {
        Aspect::FourByThree => probe_line::figure(out, at, 0),
        Aspect::SixteenByNine => probe_line::figure(out, at, 1),
        Aspect::Unknown => probe_line::say(out, at, b" -"),
    }
}

// The count and the material.
pub fn says(out: &mut [u8], count: usize, m: Material) -> usize {
    let k = probe_line::one(out, 0, b"map", count);
    let mut k = part(out, k, m.name);
    for v in [m.first, m.last, m.mark_in, m.mark_out, m.size] {
        k = value(out, k, v);
    }
    k
}

// A track's record.
pub fn record(out: &mut [u8], at: usize, t: Track) -> usize {
    let mut k = probe_line::two(out, at, b" record", t.id as usize, t.media_type as usize);
    for c in [t.rate, t.lines, t.fields] {
        k = code(out, k, c);
    }
    k = value(out, k, t.version);
    for p in [t.name, t.aux, t.mpeg] {
        k = part(out, k, p);
    }
    aspect(out, k, t.aspect)
}
