// Answers requests on standard input, a line each, until the input ends or a request is malformed: docs/PROBE.md.
// What it prints is compared, not proved: it is proved safe and to end, and so are the libraries that serve it alone, `probe_` and a name.
#![tactic(auto)]

use probe_request::Function;

// The line for a request whose first byte string is read, without its end: its length, none where the request is malformed.
fn answer(out: &mut [u8], function: Function, x: u64, y: u64, z: u64, a: &[u8]) -> Option<usize> {
    match function {
        Function::Header => Some(probe_packet::header(out, a, x as usize)),
        Function::OfType => probe_packet::of_type(out, a, x as usize, y as usize),
        Function::Map => probe_map::map(out, a, x as usize, y as usize),
        Function::Name => Some(probe_text::name(out, a, x as usize, y as usize)),
        Function::NameOfTwo => probe_text::two(out, x, a),
        Function::Text => Some(probe_text::text(out, a)),
        Function::Position => Some(probe_packet::position(out, a, x as usize, y)),
        Function::Media => Some(probe_packet::media(out, a, x as usize)),
        Function::Check => Some(probe_stream::check(out, a)),
        Function::Seek => Some(probe_stream::seek(out, a, x, y)),
        Function::Build => probe_stream::build(out, a, x as usize),
        Function::Lookup => Some(probe_stream::lookup(out, a, x, y)),
        Function::WriteLocator => probe_write::locator(out, a, x as usize, y as usize, z),
        Function::WriteMap => probe_write::map_request(out, x, y, a),
        Function::Walk => probe_packet::walk(out, a, x as usize),
    }
}

fn one(out: &mut [u8], function: Function, x: u64, y: u64, z: u64) -> Option<usize> {
    let mut a = [0u8; 65536];
    let a = probe_request::string(&mut a)?;
    answer(out, function, x, y, z, a)
}

fn request(out: &mut [u8], number: u8) -> Option<usize> {
    let function = Function::try_from(number).ok()?;
    let want = function.numbers();
    let mut head = [0u8; 24];
    if console::take(&mut head[..want]) < want {
        return None;
    }
    let x = probe_request::word(&head, 0);
    let y = probe_request::word(&head, 1);
    let z = probe_request::word(&head, 2);
    one(out, function, x, y, z)
}

// Writes a line of n bytes with its end; whether it was written.
fn write_line(out: &mut [u8], n: usize) -> bool {
    let k = probe_line::say(out, n, b"\n");
    if out.len() < k {
        return false;
    }
    io::write_all(console::STANDARD_OUTPUT, &out[0..k])
}

// Answers the next request; whether to go on.
fn serve(out: &mut [u8]) -> bool {
    let mut function = [0u8; 1];
    if console::take(&mut function) < 1 {
        return false;
    }
    match request(out, function[0]) {
        Some(n) => write_line(out, n),
        None => {
            console::say(b"malformed\n");
            false
        }
    }
}

fn main() {
    let mut out = [0u8; 262144];
    for _ in 0..u64::MAX {
        if !serve(&mut out) {
            return;
        }
    }
}
