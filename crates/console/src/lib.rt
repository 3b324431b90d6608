// What the programs print and load with: texts and numbers to standard output, bytes from standard input or a file into a lent buffer.
#![tactic(auto)]

ghost use Rattle.std.specs.Prelude.{◌≤◌, ◌≡◌, length};
ghost use Rattle.io.specs.Counts.{IsPrefixLen};
ghost use Rattle.console.specs.Bits.{bits_of};

use plate::{Fault, Refusal};
use std::fs::File;
use std::io::Read;
use std::rt::Files;

// The descriptors that a program begins with.
const STANDARD_INPUT: i32 = 0;

pub const STANDARD_OUTPUT: i32 = 1;

// A text as it is.
pub fn say(text: &[u8])
    ensures { result ≡ tt }
{
    io::write_all(STANDARD_OUTPUT, text);
}

// A number in decimal.
pub fn number(n: u64)
    ensures { result ≡ tt }
{
    io::print_decimal(STANDARD_OUTPUT, n);
}

// A space and a number.
pub fn figure(n: u64)
    ensures { result ≡ tt }
{
    say(b" ");
    number(n);
}

// A refusal: its number and its place, and of a torn packet the bytes lacking.
pub fn refused(r: Refusal)
    ensures { result ≡ tt }
{
    say(b"refused");
    figure(r.fault.number() as u64);
    figure(r.place as u64);
    if r.fault.number() == Fault::Torn.number() {
        figure(r.lacking as u64);
    }
}

// Standard input into a lent buffer until it is full or the input ends: how many bytes.
pub fn take(buffer: &mut [u8]) -> usize
    ensures { IsPrefixLen result buffer.new }
{
    io::read_full(STANDARD_INPUT, buffer)
}

// What a reader gives, into a lent buffer, until it is full, the bytes end or a read fails: how many.
fn fill<F: Read>(file: &mut F, buffer: &mut [u8]) -> usize
    ensures { result ≤ length buffer.old }
{
    let mut done = 0;
    while done < buffer.len() {
        match file.read(&mut buffer[done..]) {
            Ok(0) | Err(_) => return done,
            Ok(n) => done += n,
        }
    }
    done
}

// Says on standard error why a file is not read.
fn complain<R: Eprint>(rt: &R, path: &str, why: std::io::Error) {
    let _ = eprintln!(rt; "{path}: {why}");
}

// A file's first bytes into a lent buffer: how many; none where it cannot be read. A path that is no UTF-8 names no file.
pub fn load<R: Files + Eprint>(rt: &R, path: &[u8], buffer: &mut [u8]) -> usize
    ensures { result ≤ length buffer.old }
{
    let Ok(name) = str::from_utf8(path) else {
        let _ = eprintln!(rt; "a path that is no UTF-8 names no file");
        return 0;
    };
    match File::open(rt, name) {
        Ok(mut file) => fill(&mut file, buffer),
        Err(why) => {
            complain(rt, name, why);
            0
        }
    }
}

// A float's bits; of what is no number, which the library gives nowhere, 0.
pub fn bits_of(x: f64) -> u64
    ensures { result ≡ bits_of x }
{
    if x == x {
        return x.to_bits();
    }
    0
}
