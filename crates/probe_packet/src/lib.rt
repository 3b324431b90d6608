// The probe's answers of one packet, and of a walker.
#![tactic(auto)]

use media::Media;
use packet::Packet;
use plate::Refusal;

fn packet_words(out: &mut [u8], at: usize, a: Result<Packet, Refusal>) -> usize {
    match a {
        Ok(p) => probe_line::two(out, at, b"packet", p.packet_type as usize, p.len),
        Err(r) => probe_line::refused(out, at, r),
    }
}

pub fn header(out: &mut [u8], s: &[u8], at: usize) -> usize {
    packet_words(out, 0, packet::header(s, at))
}

// None where the type is no byte: the request is malformed.
pub fn of_type(out: &mut [u8], s: &[u8], at: usize, packet_type: usize) -> Option<usize> {
    let packet_type = u8::try_from(packet_type).ok()?;
    Some(packet_words(out, 0, packet::of_type(s, at, packet_type)))
}

// The table's own refusal is asked of the reader of the table.
fn position_by(s: &[u8], at: usize, distance: u64) -> Result<usize, Refusal> {
    locator::read(s, at)?;
    let p = locator::position(s, at, distance)?;
    Ok(p as usize)
}

pub fn position(out: &mut [u8], s: &[u8], at: usize, distance: u64) -> usize {
    probe_line::answer(out, 0, b"position", position_by(s, at, distance))
}

fn media_words(out: &mut [u8], m: Media) -> usize {
    let k = probe_line::two(out, 0, b"media", m.media_type as usize, m.track as usize);
    let k = probe_line::figure(out, k, m.field as u64);
    let k = probe_line::figure(out, k, m.info as u64);
    let k = probe_line::figure(out, k, m.timeline as u64);
    probe_line::figure(out, k, m.flags as u64)
}

pub fn media(out: &mut [u8], s: &[u8], at: usize) -> usize {
    match media::read(s, at) {
        Ok(m) => media_words(out, m),
        Err(r) => probe_line::refused(out, 0, r),
    }
}

// The answer of a walker's step, and its place after it.
fn step_words(out: &mut [u8], at: usize, a: Result<Packet, Refusal>, place: usize) -> usize {
    let k = probe_line::say(out, at, b" ");
    let k = packet_words(out, k, a);
    probe_line::figure(out, k, place as u64)
}

// A walker that takes n steps from place 0 ends where the steps one by one do.
fn same_place(out: &mut [u8], at: usize, s: &[u8], n: usize, place: usize) -> usize {
    let stop = walker::walk(s, 0, n);
    if stop.at == place {
        return at;
    }
    probe_line::say(out, at, b" strayed")
}

// The walker's answers to n steps from place 0, each with its place after the step; none where n is over 5,000.
pub fn walk(out: &mut [u8], s: &[u8], n: usize) -> Option<usize> {
    if 5000 < n {
        return None;
    }
    let mut k = probe_line::say(out, 0, b"walk");
    let mut at: usize = 0;
    for _ in 0..n {
        let here = walker::walk(s, at, 0);
        at = walker::walk(s, at, 1).at;
        k = step_words(out, k, here.answer, at);
    }
    Some(same_place(out, k, s, n, at))
}
