// Maps that were made outside, each followed by its twin, which lacks what the reader doesn't know: whether the two answer alike, places aside, and the aspects of their tracks.
// The last pairs are no twins and must not.
#![tactic(auto)]

use console::say;
use map_answer::{Material, Track};
use map_aspect::Aspect;
use map_items::Part;
use plate::{Fault, Refusal};

fn figure(n: usize) {
    console::figure(n as u64);
}

// Whether n bytes from a place of p on are those from a place of q on; they have to lie in them.
fn same_bytes(p: &[u8], i: usize, q: &[u8], j: usize, n: usize) -> bool {
    if p.len() < i || p.len() - i < n {
        return false;
    }
    if q.len() < j || q.len() - j < n {
        return false;
    }
    p[i..i + n] == q[j..j + n]
}

// Present in both with the same stored length and the same bytes, or absent from both.
fn same_part(p: &[u8], a: Option<Part>, q: &[u8], b: Option<Part>) -> bool {
    match (a, b) {
        (Some(x), Some(y)) => x.len == y.len && same_bytes(p, x.at, q, y.at, x.len),
        (None, None) => true,
        _ => false,
    }
}

fn same_material(p: &[u8], a: Material, q: &[u8], b: Material) -> bool {
    let numbers = Material { name: b.name, ..a };
    numbers == b && same_part(p, a.name, q, b.name)
}

// All but the places is equal, and the parts at the places are the same.
fn same_track(p: &[u8], a: Track, q: &[u8], b: Track) -> bool {
    let bare = Track {
        name: b.name,
        aux: b.aux,
        mpeg: b.mpeg,
        ..a
    };
    bare == b
        && same_part(p, a.name, q, b.name)
        && same_part(p, a.aux, q, b.aux)
        && same_part(p, a.mpeg, q, b.mpeg)
}

// Whether the thing asked for isn't there.
fn is_16(r: Refusal) -> bool {
    r.fault.number() == Fault::NotThere.number()
}

// The k-th track: a record in both that is the same, or a refusal with 16 in both.
fn same_kth(p: &[u8], q: &[u8], k: usize) -> bool {
    match (map::track(p, 0, k), map::track(q, 0, k)) {
        (Ok(a), Ok(b)) => same_track(p, a, q, b),
        (Err(r), Err(t)) => is_16(r) && is_16(t),
        _ => false,
    }
}

// Each of the n listed tracks, and that there are no more.
fn same_tracks(p: &[u8], q: &[u8], n: usize) -> bool {
    for k in 0..n {
        if !same_kth(p, q, k) {
            return false;
        }
    }
    same_kth(p, q, n)
}

fn same_answer(p: &[u8], q: &[u8]) -> bool {
    match (map::read(p, 0), map::read(q, 0)) {
        (Ok(a), Ok(b)) => {
            a.count == b.count
                && same_material(p, a.material, q, b.material)
                && same_tracks(p, q, a.count)
        }
        _ => false,
    }
}

fn show_count(p: &[u8]) {
    match map::read(p, 0) {
        Ok(a) => {
            figure(a.count);
            say(b" tracks");
        }
        Err(r) => {
            say(b" ");
            console::refused(r);
        }
    }
}

fn show_aspect(a: Aspect) {
    match a {
        Aspect::FourByThree => say(b" 4x3"),
        Aspect::SixteenByNine => say(b" 16x9"),
        Aspect::Unknown => say(b" -"),
    }
}

// The aspects of a map's tracks, 64 at most; a track behind the last says nothing.
fn show_aspects(p: &[u8]) {
    for k in 0..64 {
        let Ok(t) = map::track(p, 0, k) else {
            return;
        };
        show_aspect(t.aspect);
    }
}

fn show_pair(label: &[u8], n: usize, p: &[u8], q: &[u8]) {
    say(label);
    figure(n);
    say(b":");
    figure(p.len());
    say(b" and");
    figure(q.len());
    say(b" bytes,");
    show_count(p);
    if same_answer(p, q) {
        say(b", alike:");
    } else {
        say(b", unlike:");
    }
    show_aspects(p);
    say(b" and");
    show_aspects(q);
    say(b"\n");
}

// The length of the map packet at a place.
fn length_at(s: &[u8], at: usize) -> Option<usize> {
    let w = packet::of_type(s, at, packet::MAP).ok()?;
    Some(w.len)
}

fn show_pairs(label: &[u8], s: &[u8]) {
    let mut at: usize = 0;
    let mut n: usize = 0;
    while at < s.len() {
        let Some(a) = length_at(s, at) else {
            return;
        };
        if a == 0 || s.len() - at < a {
            return;
        }
        let e = at + a;
        let b = length_at(s, e).unwrap_or(0);
        if s.len() - e < b {
            return;
        }
        let f = e + b;
        n += 1;
        show_pair(label, n, &s[at..e], &s[e..f]);
        at = f;
    }
}

fn show_file(rt: &HostRuntime, path: &[u8], label: &[u8]) {
    let mut buffer = [0u8; 131072];
    let n = console::load(rt, path, &mut buffer);
    say(path);
    say(b"\n");
    show_pairs(label, &buffer[0..n]);
}

fn main(rt: HostRuntime) {
    show_file(&rt, b"pairs.gxf", b"pair");
    show_file(&rt, b"full.gxf", b"pair");
    show_file(&rt, b"controls.gxf", b"control");
}
