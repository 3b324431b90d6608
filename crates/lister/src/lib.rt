// What the listing prints of a stream: a line a packet and their number, or the one refusal.
#![tactic(auto)]

use console::say;
use plate::Refusal;

fn print_type(packet_type: u8) {
    match packet_type {
        packet::MAP => say(b"map"),
        packet::MEDIA => say(b"media"),
        packet::EOS => say(b"eos"),
        packet::FLT => say(b"flt"),
        packet::UMF => say(b"umf"),
        _ => say(b"other"),
    }
}

// The one line of a stream that is refused.
pub fn refused(r: Refusal) {
    console::refused(r);
    say(b"\n");
}

fn print_packet(at: usize, packet_type: u8, len: usize) {
    console::number(at as u64);
    say(b" ");
    print_type(packet_type);
    console::figure(len as u64);
    say(b"\n");
}

fn print_count(n: usize) {
    say(b"ok");
    console::figure(n as u64);
    say(b"\n");
}

// The n packets of an accepted stream.
fn packets(s: &[u8], n: usize) {
    let mut at: usize = 0;
    for _ in 0..n {
        let Ok(p) = packet::header(s, at) else {
            return;
        };
        print_packet(at, p.packet_type, p.len);
        at += p.len;
    }
    print_count(n);
}

pub fn list(s: &[u8]) {
    match stream::check(s) {
        Ok(n) => packets(s, n),
        Err(r) => refused(r),
    }
}
