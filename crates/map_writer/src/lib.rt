// The writer of maps: a map packet at a place of the caller's outgoing buffer.
// What it is given, and what of that is refused, never cut, is `map_given`'s. A refused call changes nothing.
#![tactic(auto)]

ghost use Rattle.std.specs.Prelude.{◌≡◌, [], ◌∷◌, ◌++◌, ◌+◌, ◌/◌, ◌%◌, ◌≤◌, ◌<◌, true, length, get_or, take, None};
ghost use Rattle.std.proofs.lemmas.List.Edits.{sets};
ghost use Rattle.number.specs.Number.{be_bytes};
ghost use Rattle.map_items.specs.Items.{items_bytes};
ghost use Rattle.map_tracks.specs.Tracks as tracks;
ghost use Rattle.map.specs.Encode.{padding, front};
ghost use Rattle.map_given.specs.Given.{slots, material_slots, track_at, tracks_given};
ghost use Rattle.map_writer.specs.Inside.{slot_size, slots_size, tracks_size, tracks_bytes};
ghost use Rattle.map_given.specs.Faults.{fits, slot_fault, slots_fault, tracks_fault, ids_fault, fault_of};
ghost use Rattle.map_writer.specs.Write.{items_of, map_packet, map_written_answer, map_written_in};

use map_given::Slot;
use plate::{Fault, Refusal};

// The bytes that a slot's item takes.
fn slot_size(s: Slot) -> usize
    ensures { result ≡ slot_size s }
{
    if s.mark != map_given::PRESENT {
        return 0;
    }
    match s.tag {
        tag if map_given::is_text(tag) => if 254 < s.second {
            0
        } else {
            3 + (s.second as usize)
        },
        0x4D => 10,
        _ => 6,
    }
}

// The bytes that the items of the slots take that some words are, for tags from one on.
fn slots_size(words: &[u64], tag: u8) -> usize
    requires { (tag + length words.now / 3 < 256) × (slots_size (slots (length words.now / 3) words.now 0 tag) ≤ 34688) }
    ensures { result ≡ slots_size (slots (length words.now / 3) words.now 0 tag) }
{
    let mut total: usize = 0;
    for i in 0..words.len() / 3 {
        total += slot_size(map_given::slot_at(words, 3 * i, tag + i as u8));
    }
    total
}

// The bytes that the tracks take.
fn tracks_size(tracks: &[u64]) -> usize
    requires { tracks_size (tracks_given tracks.now) ≤ 34688 }
    ensures { result ≡ tracks_size (tracks_given tracks.now) }
{
    let mut total: usize = 0;
    for track in tracks.chunks_exact(map_given::TRACK_WORDS) {
        total += 4 + slots_size(&track[map_given::NAME..], 0x4C);
    }
    total
}

// Writes two bytes: those that an item, a track or a map's payload begins with.
fn put_two(out: &mut [u8], pos: usize, first: u8, second: u8)
    requires { pos + 2 ≤ length out.old }
    ensures { out.new ≡ sets out.old pos (first ∷ second ∷ []) }
{
    out[pos] = first;
    out[pos + 1] = second;
}

// Writes an item's tag, its length byte and a part of the lent text.
fn put_part(out: &mut [u8], pos: usize, tag: u8, size: u8, part: &[u8])
    requires { pos + 2 + length part.now ≤ length out.old }
    ensures { out.new ≡ sets out.old pos (tag ∷ size ∷ part.now) }
{
    put_two(out, pos, tag, size);
    out[pos + 2..pos + 2 + part.len()].copy_from_slice(part);
}

// Writes a text item: a part of the lent text, and the 00.
fn put_text(out: &mut [u8], pos: usize, tag: u8, part: &[u8])
    requires { (pos + 3 + length part.now ≤ length out.old) × (length part.now ≤ 254) }
    ensures { out.new ≡ sets out.old pos (tag ∷ (length part.now + 1) ∷ (part.now ++ (0 ∷ []))) }
{
    put_part(out, pos, tag, (part.len() + 1) as u8, part);
    out[pos + 2 + part.len()] = 0;
}

// Writes an item of four bytes.
fn put_number(out: &mut [u8], pos: usize, tag: u8, v: usize)
    requires { pos + 6 ≤ length out.old }
    ensures { out.new ≡ sets out.old pos (tag ∷ 4 ∷ be_bytes 4 v) }
{
    put_two(out, pos, tag, 4);
    number::put_be(out, pos + 2, v, 4);
}

// Writes the item of a slot that is present and has no fault.
fn put_item(out: &mut [u8], pos: usize, text: &[u8], s: Slot)
    requires { (pos + slot_size s ≤ length out.old) × (s.mark ≡ 1) × (fits text.now s ≡ true) }
    ensures { out.new ≡ sets out.old pos (items_bytes (items_of text.now (s ∷ []))) }
{
    let from = s.first as usize;
    if map_given::is_text(s.tag) {
        let to = from + s.second as usize;
        put_text(out, pos, s.tag, &text[from..to]);
    } else if s.tag == 0x4D {
        put_part(out, pos, s.tag, 8, &text[from..from + 8]);
    } else {
        put_number(out, pos, s.tag, from);
    }
}

// Writes the item of a slot, if it is present.
fn put_slot(out: &mut [u8], pos: usize, text: &[u8], s: Slot)
    requires { (pos + slot_size s ≤ length out.old) × (slot_fault text.now s ≡ None) }
    ensures { out.new ≡ sets out.old pos (items_bytes (items_of text.now (s ∷ []))) }
{
    if s.mark == map_given::PRESENT {
        put_item(out, pos, text, s);
    }
}

// Writes the items of the slots that some words are, for tags from one on.
fn put_slots(out: &mut [u8], pos: usize, text: &[u8], words: &[u64], tag: u8)
    requires { (tag + length words.now / 3 < 256) × (pos + slots_size (slots (length words.now / 3) words.now 0 tag) ≤ length out.old) × (slots_fault text.now (slots (length words.now / 3) words.now 0 tag) ≡ None) }
    ensures { out.new ≡ sets out.old pos (items_bytes (items_of text.now (slots (length words.now / 3) words.now 0 tag))) }
{
    let mut to = pos;
    for i in 0..words.len() / 3 {
        let s = map_given::slot_at(words, 3 * i, tag + i as u8);
        put_slot(out, to, text, s);
        to += slot_size(s);
    }
}

// Writes a track: type, ID, the length of its items, and these.
fn put_track(out: &mut [u8], pos: usize, text: &[u8], track: &[u64], size: usize)
    requires { (length track.now ≡ 23) × (size ≡ slots_size (track_at track.now 0).slots) × (pos + 4 + size ≤ length out.old) × (slots_fault text.now (track_at track.now 0).slots ≡ None) × (get_or track.now 0 0 < 128) × (get_or track.now 1 0 < 64) }
    ensures { out.new ≡ sets out.old pos (tracks_bytes text.now (track_at track.now 0 ∷ [])) }
{
    put_two(
        out,
        pos,
        (0x80 + track[map_given::TYPE]) as u8,
        (0xC0 + track[map_given::ID]) as u8,
    );
    number::put_be(out, pos + 2, size, 2);
    put_slots(out, pos + 4, text, &track[map_given::NAME..], 0x4C);
}

// Writes the tracks, in the given order.
fn put_tracks(out: &mut [u8], pos: usize, text: &[u8], tracks: &[u64])
    requires { (pos + tracks_size (tracks_given tracks.now) ≤ length out.old) × (tracks_fault text.now (tracks_given tracks.now) ≡ None) × (ids_fault [] (tracks_given tracks.now) ≡ None) }
    ensures { out.new ≡ sets out.old pos (tracks_bytes text.now (tracks_given tracks.now)) }
{
    let mut to = pos;
    for track in tracks.chunks_exact(map_given::TRACK_WORDS) {
        let size = slots_size(&track[map_given::NAME..], 0x4C);
        put_track(out, to, text, track, size);
        to += 4 + size;
    }
}

// The fewest zeros that make a multiple of 4.
fn padding_of(n: usize) -> usize
    ensures { result ≡ padding n }
{
    (4 - n % 4) % 4
}

// Writes the header of a map packet, its version and its reserved byte.
fn put_front(out: &mut [u8], len: usize)
    requires { 18 ≤ length out.old }
    ensures { out.new ≡ sets out.old 0 (front len (0 ∷ 0 ∷ 0 ∷ 0 ∷ []) 0xFF) }
{
    packet_writer::put_header(out, packet::MAP, len);
    put_two(out, 16, 0xE0, 0xFF);
}

// Writes the packet at the start of the buffer; m and t are the lengths of its sections.
fn put_packet(out: &mut [u8], text: &[u8], material: &[u64], tracks: &[u64], m: usize, t: usize)
    requires { (22 + m + t + padding (22 + m + t) ≤ length out.old) × (m ≡ slots_size (material_slots material.now)) × (t ≡ tracks_size (tracks_given tracks.now)) × (fault_of text.now material.now tracks.now ≡ None) }
    ensures { out.new ≡ sets out.old 0 (map_packet text.now material.now tracks.now) }
{
    let used = 22 + m + t;
    let pad = padding_of(used);
    put_front(out, used + pad);
    number::put_be(out, 18, m, 2);
    put_slots(out, 20, text, material, 0x40);
    number::put_be(out, 20 + m, t, 2);
    put_tracks(out, 22 + m, text, tracks);
    out[used..used + pad].fill(0);
}

// Writes a map packet at a place of the buffer: refusals 24, 11, 10, 29 and 13, in this order.
// The material is a record of MATERIAL_WORDS words, the tracks are records of TRACK_WORDS words each; texts and 4D are parts of the lent text.
pub fn write(
    out: &mut [u8],
    at: usize,
    text: &[u8],
    material: &[u64],
    tracks: &[u64],
) -> Result<usize, Refusal>
    ensures { (result ≡ map_written_answer out.old at text.now material.now tracks.now) × (out.new ≡ map_written_in out.old at text.now material.now tracks.now) }
{
    if let Some(fault) = map_given::fault(text, material, tracks) {
        return Err(plate::refuse(fault, 0));
    }
    if map_given::any_wrong(tracks) {
        return Err(plate::refuse(Fault::WrongForm, 0));
    }
    let m = slots_size(material, 0x40);
    let t = tracks_size(tracks);
    let used = 22 + m + t;
    let len = used + padding_of(used);
    if packet_writer::lacks_room(out.len(), at, len) {
        return Err(plate::refuse(Fault::Room, 0));
    }
    put_packet(&mut out[at..], text, material, tracks, m, t);
    Ok(len)
}
