// The writers at work, and their bench readings: the map M written from words and read back, a field number of 33 bits, a place beyond all buffers, the largest map, and a locator table.
#![tactic(auto)]

use console::{figure, say};
use map_answer::Material;
use plate::Refusal;

fn refused(r: Refusal) {
    console::refused(r);
    say(b"\n");
}

fn show_answer(answer: Result<usize, Refusal>) {
    match answer {
        Ok(n) => {
            say(b"length");
            figure(n as u64);
            say(b"\n");
        }
        Err(r) => refused(r),
    }
}

// Sets a slot of a record: present, with its two words.
fn set_slot(record: &mut [u64], slot: usize, first: u64, second: u64) {
    if 3 <= record.len() && slot <= record.len() - 3 {
        record[slot..slot + 3].copy_from_slice(&[map_given::PRESENT, first, second]);
    }
}

// The bytes of a buffer, in decimal.
fn show_bytes(bytes: &[u8]) {
    for &b in bytes {
        figure(u64::from(b));
    }
    say(b"\n");
}

fn show_first(m: Material) {
    match m.first {
        Some(n) => {
            say(b"first field");
            figure(u64::from(n));
            say(b"\n");
        }
        None => say(b"no first field\n"),
    }
}

fn show_map(out: &[u8], at: usize) {
    match map::read(out, at) {
        Ok(a) => {
            say(b"tracks");
            figure(a.count as u64);
            say(b"\n");
            show_first(a.material);
        }
        Err(r) => refused(r),
    }
}

fn show_track(out: &[u8], at: usize) {
    match map::track(out, at, 0) {
        Ok(t) => {
            say(b"track");
            figure(u64::from(t.id));
            say(b" type");
            figure(u64::from(t.media_type));
            say(b"\n");
        }
        Err(r) => refused(r),
    }
}

// M: first field 0; track 1, type 10, name A1, rate not available. It goes to byte 2 of the buffer.
fn write_m() {
    let mut material = [0u64; 18];
    set_slot(&mut material, map_given::FIRST_FIELD, 0, 0);
    let mut track = [0u64; 23];
    track[map_given::TYPE] = 10;
    track[map_given::ID] = 1;
    set_slot(&mut track, map_given::NAME, 0, 2);
    set_slot(&mut track, map_given::RATE, 0xFFFF_FFFF_FFFF_FFFE, 0);
    let mut out = [7u8; 48];
    show_answer(map_writer::write(&mut out, 2, b"A1", &material, &track));
    show_bytes(&out);
    show_map(&out, 2);
    show_track(&out, 2);
}

// A field number, at a place of a buffer.
fn write_first_field(first: u64, at: usize) {
    let mut material = [0u64; 18];
    set_slot(&mut material, map_given::FIRST_FIELD, first, 0);
    let track = [0u64; 23];
    let mut out = [7u8; 64];
    show_answer(map_writer::write(&mut out, at, b"", &material, &[]));
}

// The material of the largest map: the text as its name, and 1 for each number.
fn fill_material(material: &mut [u64]) {
    set_slot(material, map_given::MATERIAL_NAME, 0, 254);
    set_slot(material, map_given::FIRST_FIELD, 1, 0);
    set_slot(material, map_given::LAST_FIELD, 1, 0);
    set_slot(material, map_given::MARK_IN, 1, 0);
    set_slot(material, map_given::MARK_OUT, 1, 0);
    set_slot(material, map_given::SIZE, 1, 0);
}

// A track of the largest map: type 11, the text as its name and its 4F, and 1 for each number and code.
fn fill_track(track: &mut [u64], id: u64) {
    if track.len() < map_given::TRACK_WORDS {
        return;
    }
    track[map_given::TYPE] = 11;
    track[map_given::ID] = id;
    set_slot(track, map_given::NAME, 0, 254);
    set_slot(track, map_given::VERSION, 1, 0);
    set_slot(track, map_given::MPEG, 0, 254);
    set_slot(track, map_given::RATE, 1, 0);
    set_slot(track, map_given::LINES, 1, 0);
    set_slot(track, map_given::FIELDS, 1, 0);
}

// Its tracks, with IDs from 0 on.
fn fill_tracks(tracks: &mut [u64]) {
    for (id, track) in tracks.chunks_exact_mut(map_given::TRACK_WORDS).enumerate() {
        fill_track(track, id as u64);
    }
}

// The largest map, in a room of its length, and in one of a byte less.
fn write_largest() {
    let text = [0x41u8; 254];
    let mut material = [0u64; 18];
    fill_material(&mut material);
    let mut tracks = [0u64; 1472];
    fill_tracks(&mut tracks);
    let mut out = [7u8; 35000];
    show_answer(map_writer::write(&mut out, 0, &text, &material, &tracks));
    show_answer(map_writer::write(&mut out, 1, &text, &material, &tracks));
    show_map(&out, 0);
}

// Step 40, one entry 4,194,304: distance 39 is at 4,294,967,296.
fn write_locator() {
    let offsets = [4194304u64; 1];
    let mut out = [7u8; 28];
    show_answer(locator_writer::write(&mut out, 0, 40, &offsets));
    match locator::position(&out, 0, 39) {
        Ok(o) => {
            say(b"at");
            figure(o as u64);
            say(b"\n");
        }
        Err(r) => refused(r),
    }
}

fn main() {
    write_m();
    write_first_field(4294967295, 0);
    write_first_field(4294967296, 0);
    write_first_field(0, 0xFFFF_FFFF_FFFF_FFFF);
    write_largest();
    write_locator();
}
