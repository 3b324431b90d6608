// The track section of a map: its verdict in walk order, the number of its listed tracks, their records, and their marked types by ID.
// It serves the map reader, which hands it a part of a packet; what asks for bounds here is met there for every input.
#![tactic(auto)]

ghost use Rattle.std.specs.Prelude.{◌≡◌, true, false, ◌+◌, ◌-◌, ◌<◌, ◌≤◌, ◌^◌, length, set, replicate};
ghost use Rattle.plate.specs.Choice.{pick};
ghost use Rattle.media_type.specs.MediaType.{known_type};
ghost use Rattle.map_items.specs.Items.{section_of};
ghost use Rattle.map_items.specs.Find.{find, part_of};
ghost use Rattle.map_answer.specs.Answer.{is_null};
ghost use Rattle.map_tracks.specs.Inside.{holds, Empty, Adds, key_of, keyed_of};
ghost use Rattle.map_tracks.specs.Tracks.{track_over, track_verdict, tracks_of, tracks_verdict, listed, kth_of, id_of, byte_of, types_of};

use map_answer::Track;
use map_items::{Part, Section};
use plate::{Fault, Refusal};

// The track IDs seen so far: bit k, worth 2^k, is ID k.
#[derive(Clone, Copy)]
pub struct Seen {
    pub ids: u64,
}

// By ID, the type under which a track is listed, with the mark where its fields per frame are 1; 0 where none is.
#[derive(Clone, Copy)]
pub struct Types {
    pub media_types: [u8; 64],
}

fn nobody() -> Seen
    ensures { Empty result }
{
    Seen { ids: 0 }
}

fn has(seen: Seen, id: u8) -> bool
    requires { 0xC0 ≤ id }
    ensures { result ≡ holds seen id }
{
    let k = number::wide(id) - 0xC0;
    (seen.ids >> k) % 2 == 1
}

fn with(seen: Seen, id: u8) -> Seen
    requires { 0xC0 ≤ id }
    ensures { Adds seen id result }
{
    let k = number::wide(id) - 0xC0;
    let bit: u64 = 1 << k;
    Seen {
        ids: seen.ids | bit,
    }
}

// Whether a track of a type byte is listed.
fn is_listed(type_byte: u8) -> bool
    ensures { result ≡ known_type (type_byte - 0x80) }
{
    media_type::is_known(map_answer::bare(type_byte, 0x80))
}

fn one_if_listed(type_byte: u8) -> usize
    ensures { result ≡ pick (known_type (type_byte - 0x80)) 1 0 }
{
    if is_listed(type_byte) { 1 } else { 0 }
}

// The media type of a track, with the mark where its items say fields per frame 1.
fn listed_byte(type_byte: u8, s: &[u8]) -> u8
    ensures { result ≡ byte_of type_byte s.now }
{
    let fields = map_answer::code_at(s, 0, 0x52);
    field::type_with(
        map_answer::is_progressive(fields),
        map_answer::bare(type_byte, 0x80),
    )
}

// The marked types by ID with that of one track more, if it is listed.
fn with_type(table: Types, type_byte: u8, id: u8, s: &[u8]) -> Types
    ensures { result.media_types ≡ pick (known_type (type_byte - 0x80)) (set table.media_types (id - 0xC0) (byte_of type_byte s.now)) table.media_types }
{
    if is_listed(type_byte) {
        let mut next = table;
        let k = number::wide(map_answer::bare(id, 0xC0));
        next.media_types[k] = listed_byte(type_byte, s);
        return next;
    }
    table
}

// Whether a track has a null name; without any name it has none.
fn has_null_name(s: &[u8], base: usize) -> bool
    requires { base + length s.now < 2 ^ 64 }
    ensures { result ≡ is_null (part_of (find 0x4C base (section_of s.now).list)) }
{
    map_answer::is_null(map_items::found(s, base, 0x4C))
}

// The verdict on the end of a track whose items have passed: 29 for the wrong auxiliary form. The name is sought only where that form is there.
fn judge_end(type_byte: u8, s: &[u8], base: usize) -> Result<(), Refusal>
    requires { (base + length s.now < 2 ^ 64) × ((section_of s.now).end ≡ true) }
    ensures { result ≡ track_over type_byte (section_of s.now).list base }
{
    let media_type = map_answer::bare(type_byte, 0x80);
    if !media_type::is_known(media_type) {
        return Ok(());
    }
    match map_items::found_in_whole(s, base, media_type::wrong_form(media_type)) {
        Some(value) if !has_null_name(s, base) => {
            map_items::refused(Fault::WrongForm, value.at - 2) // its tag
        }
        _ => Ok(()),
    }
}

// The verdict on a track's items, from place base of the packet on, and on its end.
fn judge_track(type_byte: u8, s: &[u8], base: usize) -> Result<(), Refusal>
    requires { base + length s.now < 2 ^ 64 }
    ensures { result ≡ track_verdict type_byte s.now base }
{
    map_items::judge(Section::Track, s, base)?;
    judge_end(type_byte, s, base)
}

// The first fault of a track section that begins at place base of its packet.
pub fn judge(s: &[u8], base: usize) -> Result<(), Refusal>
    requires { base + length s.now < 2 ^ 64 }
    ensures { result ≡ tracks_verdict s.now base }
{
    let mut seen = nobody();
    let mut at: usize = 0;
    while at < s.len() {
        let left = s.len() - at;
        if left < 4 {
            return map_items::refused(Fault::Overhang, base + at);
        }
        let type_byte = s[at];
        let id = s[at + 1];
        if type_byte < 0x80 {
            return map_items::refused(Fault::TypeOrId, base + at);
        }
        if id < 0xC0 {
            return map_items::refused(Fault::TypeOrId, base + at);
        }
        let n = number::be_at(s, at + 2, 2);
        if left - 4 < n {
            return map_items::refused(Fault::Overhang, base + at);
        }
        if has(seen, id) {
            return map_items::refused(Fault::Twice, base + at);
        }
        let a = at + 4;
        let e = a + n; // its length is that of its items alone
        judge_track(type_byte, &s[a..e], base + a)?;
        seen = with(seen, id);
        at = e;
    }
    Ok(())
}

// How many tracks a section lists.
pub fn count(s: &[u8]) -> usize
    ensures { result ≡ length (listed 0 (tracks_of s.now).list) }
{
    let mut found: usize = 0;
    let mut at: usize = 0;
    while at < s.len() {
        let left = s.len() - at;
        if left < 4 {
            return found;
        }
        let n = number::be_at(s, at + 2, 2);
        if left - 4 < n {
            return found;
        }
        found += one_if_listed(s[at]);
        at = at + 4 + n;
    }
    found
}

// What a listed track is asked for by: its ID, or the number of listed tracks before it.
fn key(named: bool, before: usize, id: u8) -> usize
    ensures { result ≡ key_of named before id }
{
    if named {
        map_answer::bare(id, 0xC0) as usize
    } else {
        before
    }
}

// The record of the first listed track whose key is wanted, of a section that begins at place base of its packet.
fn record_by(s: &[u8], base: usize, named: bool, wanted: usize) -> Option<Track>
    requires { base + length s.now < 2 ^ 64 }
    ensures { result ≡ keyed_of named 0 wanted (listed base (tracks_of s.now).list) }
{
    let mut before: usize = 0;
    let mut at: usize = 0;
    while at < s.len() {
        let left = s.len() - at;
        if left < 4 {
            return None;
        }
        let n = number::be_at(s, at + 2, 2);
        if left - 4 < n {
            return None;
        }
        let a = at + 4;
        let e = a + n;
        let type_byte = s[at];
        let id = s[at + 1];
        if is_listed(type_byte) {
            if key(named, before, id) == wanted {
                return Some(map_answer::record(type_byte, id, &s[a..e], base + a));
            }
            before += 1;
        }
        at = e;
    }
    None
}

// The record of the k-th listed track, from 0, of a section that begins at place base of its packet.
pub fn kth_record(s: &[u8], base: usize, k: usize) -> Option<Track>
    requires { base + length s.now < 2 ^ 64 }
    ensures { result ≡ kth_of k (listed base (tracks_of s.now).list) }
{
    record_by(s, base, false, k)
}

// The record of the listed track of an ID, of a section that begins at place base of its packet.
pub fn record_of_id(s: &[u8], base: usize, id: usize) -> Option<Track>
    requires { base + length s.now < 2 ^ 64 }
    ensures { result ≡ id_of id (listed base (tracks_of s.now).list) }
{
    record_by(s, base, true, id)
}

// The listed IDs of a section, with their marked types.
pub fn types_by_id(s: &[u8]) -> Types
    ensures { result.media_types ≡ types_of (replicate 64 0) (tracks_of s.now).list }
{
    let mut table = Types {
        media_types: [0u8; 64],
    };
    let mut at: usize = 0;
    while at < s.len() {
        let left = s.len() - at;
        if left < 4 {
            return table;
        }
        let n = number::be_at(s, at + 2, 2);
        if left - 4 < n {
            return table;
        }
        let a = at + 4;
        let e = a + n;
        table = with_type(table, s[at], s[at + 1], &s[a..e]);
        at = e;
    }
    table
}
