// The probe's lines: tokens of a line, put into a lent buffer from a place on; each function gives the place behind what it put. What finds no room is left out.
#![tactic(auto)]

use plate::{Fault, Refusal};

fn put(out: &mut [u8], at: usize, b: u8) -> usize {
    if at < out.len() {
        out[at] = b;
        return at + 1;
    }
    at
}

fn digit(x: u8) -> u8 {
    match x % 16 {
        d @ 0..=9 => b'0' + d,
        d => b'a' + (d - 10),
    }
}

// A byte as it is, or in two digits.
fn byte(out: &mut [u8], at: usize, b: u8, in_hex: bool) -> usize {
    if in_hex {
        let k = put(out, at, digit(b / 16));
        return put(out, k, digit(b));
    }
    put(out, at, b)
}

fn spell(out: &mut [u8], at: usize, bytes: &[u8], in_hex: bool) -> usize {
    let mut k = at;
    for &b in bytes {
        k = byte(out, k, b, in_hex);
    }
    k
}

// A text as it is.
pub fn say(out: &mut [u8], at: usize, text: &[u8]) -> usize {
    spell(out, at, text, false)
}

// A space and a number.
pub fn figure(out: &mut [u8], at: usize, n: u64) -> usize {
    let mut digits = [0u8; 20];
    let m = io::decimal(n, &mut digits);
    let k = say(out, at, b" ");
    say(out, k, &digits[..m])
}

// A space, `x` and two digits a byte.
pub fn hex(out: &mut [u8], at: usize, bytes: &[u8]) -> usize {
    let k = say(out, at, b" x");
    spell(out, k, bytes, true)
}

// A space and the bits of a float, in 16 digits.
pub fn bits(out: &mut [u8], at: usize, x: f64) -> usize {
    let mut text = [0u8; 16];
    let m = io::hex(console::bits_of(x), 16, &mut text);
    let k = say(out, at, b" ");
    say(out, k, &text[..m])
}

// A word and a number.
pub fn one(out: &mut [u8], at: usize, word: &[u8], n: usize) -> usize {
    let k = say(out, at, word);
    figure(out, k, n as u64)
}

// A word and two numbers.
pub fn two(out: &mut [u8], at: usize, word: &[u8], n: usize, m: usize) -> usize {
    let k = one(out, at, word, n);
    figure(out, k, m as u64)
}

// A word and a number, or the refusal that stands in its place.
pub fn answer(out: &mut [u8], at: usize, word: &[u8], a: Result<usize, Refusal>) -> usize {
    match a {
        Ok(n) => one(out, at, word, n),
        Err(r) => refused(out, at, r),
    }
}

// A refusal: its number and its place, and of a torn packet the bytes lacking.
pub fn refused(out: &mut [u8], at: usize, r: Refusal) -> usize {
    let k = two(out, at, b"refused", r.fault.number() as usize, r.place);
    if r.fault.number() == Fault::Torn.number() {
        return figure(out, k, r.lacking as u64);
    }
    k
}
