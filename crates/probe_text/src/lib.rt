// The probe's answers of a track's texts: its name, by one map or two, and the parameters of an auxiliary text.
#![tactic(auto)]

use map_name::OfTwo;
use mpeg_parameter::{ParameterValue, Parameters};
use plate::Refusal;

// Of 1 to 6 the place is the packet's first byte in the bytes that were sent, of others it counts from there.
fn placed(r: Refusal, at: usize) -> Refusal {
    if r.fault.number() < 7 {
        return plate::placed(r, at);
    }
    r
}

// The library takes the map at the start of what it is lent: that is the bytes from the position on.
fn name_words(out: &mut [u8], p: &[u8], id: usize, at: usize) -> usize {
    match map_name::name_place(p, id) {
        Ok(name) => probe_line::two(out, 0, b"name", name.at, name.len),
        Err(r) => probe_line::refused(out, 0, placed(r, at)),
    }
}

fn name_in(out: &mut [u8], p: &[u8], id: usize, at: usize) -> usize {
    let k = name_words(out, p, id, at);
    probe_line::hex(out, k, map_name::name(p, id))
}

pub fn name(out: &mut [u8], s: &[u8], at: usize, id: usize) -> usize {
    if at < s.len() {
        return name_in(out, &s[at..], id, at);
    }
    name_in(out, &s[..0], id, at)
}

fn two_words(out: &mut [u8], opening: &[u8], closing: &[u8], id: usize) -> usize {
    match map_name::name_place_of_two(opening, closing, id) {
        Ok(OfTwo::Opening(name)) => probe_line::two(out, 0, b"opening", name.at, name.len),
        Ok(OfTwo::Closing(name)) => probe_line::two(out, 0, b"closing", name.at, name.len),
        Err(r) => probe_line::refused(out, 0, r),
    }
}

pub fn name_of_two<'a>(out: &mut [u8], opening: &'a [u8], closing: &'a [u8], id: usize) -> usize {
    let k = two_words(out, opening, closing, id);
    probe_line::hex(out, k, map_name::name_of_two(opening, closing, id))
}

fn value(out: &mut [u8], at: usize, v: ParameterValue) -> usize {
    match v {
        ParameterValue::Whole(n) => probe_line::figure(out, at, n as u64),
        ParameterValue::Rate(x) => probe_line::bits(out, at, x),
    }
}

fn values(out: &mut [u8], p: Parameters) -> usize {
    let mut k = probe_line::say(out, 0, b"parameters");
    for v in [
        p.ver, p.br, p.ipg, p.ppi, p.bpiop, p.pix, p.cf, p.cg, p.sl, p.nl16, p.vi, p.f1, p.cbpg,
        p.ar,
    ] {
        k = value(out, k, v);
    }
    k
}

pub fn text(out: &mut [u8], s: &[u8]) -> usize {
    match mpeg::read(s) {
        Ok(p) => values(out, p),
        Err(r) => probe_line::refused(out, 0, r),
    }
}

// The name of a track by two maps: the second is still to be read.
// It is called, so that its room is on the stack for these requests alone.
#[inline(never)]
pub fn two(out: &mut [u8], x: u64, a: &[u8]) -> Option<usize> {
    let mut b = [0u8; 65536];
    let b = probe_request::string(&mut b)?;
    Some(name_of_two(out, a, b, x as usize))
}
