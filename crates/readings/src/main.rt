// The bench readings that run: streams of 99 and 100 packets without a map, maps and a stream that are cut, rates of auxiliary texts, and streams that a multiplexer made.
#![tactic(auto)]

use console::{figure, load, refused, say};
use map_answer::{Code, Material};
use map_aspect::Aspect;
use mpeg_parameter::ParameterValue;

fn show_check(s: &[u8]) {
    match stream::check(s) {
        Ok(n) => {
            say(b"packets");
            figure(n as u64);
        }
        Err(r) => refused(r),
    }
    say(b"\n");
}

fn show_seek(s: &[u8], track: u64, field: u64) {
    say(b"  seek");
    figure(track);
    figure(field);
    say(b": ");
    match stream::seek(s, track, field) {
        Ok(o) => {
            say(b"at");
            figure(o as u64);
        }
        Err(r) => refused(r),
    }
    say(b"\n");
}

fn show_value(name: &[u8], v: Option<u32>) {
    if let Some(n) = v {
        say(name);
        figure(u64::from(n));
    }
}

fn show_material(m: Material) {
    show_value(b", first", m.first);
    show_value(b", last", m.last);
    show_value(b", mark in", m.mark_in);
    show_value(b", mark out", m.mark_out);
    show_value(b", size", m.size);
}

fn show_code(name: &[u8], c: Code) {
    if c == Code::Absent {
        return;
    }
    say(name);
    match c {
        Code::Is(n) => figure(u64::from(n)),
        Code::NotApplicable => say(b" not applicable"),
        Code::NotAvailable => say(b" not available"),
        Code::Absent => {}
    }
}

// The name of a listed track, as the part of the map that holds it.
fn show_name(s: &[u8], id: usize) {
    say(b", name ");
    say(map_name::name(s, id));
}

fn show_aspect(a: Aspect) {
    match a {
        Aspect::FourByThree => say(b", aspect 4x3"),
        Aspect::SixteenByNine => say(b", aspect 16x9"),
        Aspect::Unknown => say(b", aspect unknown"),
    }
}

fn show_track(s: &[u8], k: usize) {
    let Ok(t) = map::track(s, 0, k) else {
        return;
    };
    say(b"  track");
    figure(u64::from(t.id));
    say(b", type");
    figure(u64::from(t.media_type));
    show_code(b", rate", t.rate);
    show_code(b", lines", t.lines);
    show_code(b", fields", t.fields);
    show_aspect(t.aspect);
    show_name(s, usize::from(t.id));
    say(b"\n");
}

fn show_map(s: &[u8]) {
    say(b"  map: ");
    match map::read(s, 0) {
        Ok(m) => {
            say(b"tracks");
            figure(m.count as u64);
            show_material(m.material);
        }
        Err(r) => refused(r),
    }
    say(b"\n");
}

// A stream: its verdict, its first map, and some seeks.
fn show_stream(s: &[u8]) {
    show_check(s);
    show_map(s);
    show_track(s, 0);
    show_track(s, 1);
    show_seek(s, 0, 0);
    show_seek(s, 0, 10);
    show_seek(s, 0, 11);
    show_seek(s, 1, 0);
    show_seek(s, 0, 4294967296);
}

// A file's first bytes, as many as the buffer takes, shown behind a word and a name; nothing is printed before the file is read.
fn show_file<Show: Fn(&[u8])>(
    rt: &HostRuntime,
    buffer: &mut [u8],
    path: &[u8],
    word: &[u8],
    name: &[u8],
    show: Show,
)
    requires { Show.IsAlwaysCallable show }
{
    let n = load(rt, path, buffer);
    say(word);
    say(name);
    say(b": ");
    show(&buffer[..n]);
}

fn stream_file(rt: &HostRuntime, path: &[u8]) {
    show_file(rt, &mut [0u8; 131072], path, b"", path, show_stream);
}

fn check_file(rt: &HostRuntime, path: &[u8]) {
    show_file(rt, &mut [0u8; 4096], path, b"", path, show_check);
}

// What the listing prints of a stream.
fn list_file(rt: &HostRuntime, path: &[u8]) {
    show_file(rt, &mut [0u8; 4096], path, b"list ", path, lister::list);
}

// The rate of an auxiliary text, its bits held to those that were computed outside.
fn show_rate(text: &[u8], want: u64) {
    let p = match mpeg::read(text) {
        Ok(p) => p,
        Err(r) => {
            refused(r);
            say(b"\n");
            return;
        }
    };
    match p.br {
        ParameterValue::Rate(x) => {
            if console::bits_of(x) == want {
                say(b"the float computed outside\n");
            } else {
                say(b"another float than the one computed outside\n");
            }
        }
        ParameterValue::Whole(_) => say(b"a whole number\n"),
    }
}

fn rate_file(rt: &HostRuntime, path: &[u8], value: &[u8], want: u64) {
    show_file(
        rt,
        &mut [0u8; 256],
        path,
        b"Br ",
        value,
        |text| show_rate(text, want),
    );
}

// The bits of a rate that is refused are not looked at.
fn rates(rt: &HostRuntime) {
    rate_file(rt, b"br_0.txt", b"0.5", 0x3FE0000000000000);
    rate_file(rt, b"br_1.txt", b"9007199254.740992", 0x4200C6F7A0B5ED8D);
    rate_file(rt, b"br_2.txt", b"9007199254.740993", 0);
    rate_file(rt, b"br_3.txt", b"0", 0x0000000000000000);
    rate_file(rt, b"br_4.txt", b"0.000001", 0x3EB0C6F7A0B5ED8D);
}

fn longer_rates(rt: &HostRuntime) {
    rate_file(rt, b"br_5.txt", b"50000000", 0x4187D78400000000);
    rate_file(rt, b"br_6.txt", b"1234567890", 0x41D26580B4800000);
    rate_file(rt, b"br_7.txt", b"12345678901", 0);
    rate_file(rt, b"br_8.txt", b"0.123456", 0x3FBF9ACFFA7EB6BF);
    rate_file(rt, b"br_9.txt", b"0.1234567", 0);
}

// A map of which the last bytes lack, and one of which the header does; a stream that is cut inside a packet, to check and seek.
fn cut_streams(rt: &HostRuntime) {
    list_file(rt, b"map_30.gxf");
    list_file(rt, b"map_15.gxf");
    stream_file(rt, b"cut.gxf");
}

// What a multiplexer made.
fn streams(rt: &HostRuntime) {
    stream_file(rt, b"pal_one_frame.gxf");
    stream_file(rt, b"pal_mpeg2.gxf");
    stream_file(rt, b"ntsc_mpeg2.gxf");
    stream_file(rt, b"pal_mpeg1.gxf");
    stream_file(rt, b"ntsc_mpeg1.gxf");
}

fn more_streams(rt: &HostRuntime) {
    stream_file(rt, b"pal_timecode.gxf");
    stream_file(rt, b"pal_mjpeg.gxf");
    stream_file(rt, b"pal_120.gxf");
    stream_file(rt, b"pal_longer.gxf");
}

fn main(rt: HostRuntime) {
    check_file(&rt, b"without_map_99.gxf");
    check_file(&rt, b"without_map_100.gxf");
    cut_streams(&rt);
    rates(&rt);
    longer_rates(&rt);
    streams(&rt);
    more_streams(&rt);
}
