// What the map writer is given: words of 64 bits in records over a lent text, and their faults.
// What does not fit its field, is reserved or barred has a fault; nothing is cut.
#![tactic(auto)]

ghost use Rattle.std.specs.Prelude.{◌≡◌, [], ◌∷◌, ◌++◌, ◌+◌, ◌/◌, ◌≤◌, ◌<◌, leb, eqb, length, get_or};
ghost use Rattle.text.specs.Text.{text_ok};
ghost use Rattle.map_given.specs.Given.{slot_at, slots, track_at, tracks_given};
ghost use Rattle.map_given.specs.Places.{material_places, track_places};
ghost use Rattle.map_given.specs.Faults.{is_text, code_fits, fits, null_name, barred, slot_fault, graver, slots_fault, own_fault, tracks_fault, ids_fault, fault_of, given_wrong, any_wrong};
ghost use Rattle.media_type.specs.MediaType.{known_type, mpeg_type};
ghost use Rattle.map_given.specs.Inside.{flag_fault};

use plate::Fault;

// A record's slot has three words: its mark, 1 for present and 0 for absent, and two more, which are not looked at where it is absent.
// A text is its place in the lent text and its length without the 00, empty for null; 4D likewise, of length 8. A number or code is the first; the second is not looked at.
// −1 and −2 are codes as 64-bit two's complement.
pub const PRESENT: u64 = 1;

// The material's record: six slots, at these words.
pub const MATERIAL_WORDS: usize = 18;

pub const MATERIAL_NAME: usize = 0;

pub const FIRST_FIELD: usize = 3;

pub const LAST_FIELD: usize = 6;

pub const MARK_IN: usize = 9;

pub const MARK_OUT: usize = 12;

pub const SIZE: usize = 15;

// A track's record: the media type and the ID, bare, and seven slots, at these words. The type is the first.
pub const TRACK_WORDS: usize = 23;

pub const TYPE: usize = 0;

pub const ID: usize = 1;

pub const NAME: usize = 2;

pub const AUXILIARY: usize = 5;

pub const VERSION: usize = 8;

pub const MPEG: usize = 11;

pub const RATE: usize = 14;

pub const LINES: usize = 17;

pub const FIELDS: usize = 20;

// What ties the places above to the definitions; nothing calls it. PRESENT and the records' lengths are tied by `slot_fault` and `fault`.
fn tied() -> ([usize; 6], [usize; 9])
    ensures { (result.0 ≡ material_places) × (result.1 ≡ track_places) }
{
    (
        [
            MATERIAL_NAME,
            FIRST_FIELD,
            LAST_FIELD,
            MARK_IN,
            MARK_OUT,
            SIZE,
        ],
        [
            TYPE, ID, NAME, AUXILIARY, VERSION, MPEG, RATE, LINES, FIELDS,
        ],
    )
}

// A slot, and the tag that it is for.
#[derive(Clone, Copy, Debug, PartialEq, Eq)]
pub struct Slot {
    pub tag: u8,
    pub mark: u64,
    pub first: u64,
    pub second: u64,
}

// The slot that begins at a word.
pub fn slot_at(ws: &[u64], at: usize, tag: u8) -> Slot
    requires { at + 3 ≤ length ws.now }
    ensures { result ≡ slot_at ws.now at tag }
{
    Slot {
        tag,
        mark: ws[at],
        first: ws[at + 1],
        second: ws[at + 2],
    }
}

// Whether a tag's item is a text: 40, 4C, 4F.
pub fn is_text(tag: u8) -> bool
    ensures { result ≡ is_text tag }
{
    matches!(tag, 0x40 | 0x4C | 0x4F)
}

// Whether bytes are a text once they have their 00.
fn reads_as_text(v: &[u8]) -> bool
    ensures { result ≡ text_ok (v.now ++ (0 ∷ [])) }
{
    v.iter().all(|b| matches!(*b, 1..=0x7F))
}

// Whether a number is a code of a tag: −1, −2, or a value of Table 6.
fn code_fits(tag: u8, n: u64) -> bool
    ensures { result ≡ code_fits tag n }
{
    match n {
        0xFFFF_FFFF_FFFF_FFFF | 0xFFFF_FFFF_FFFF_FFFE => true,
        0..=8 => map_answer::is_allowed(tag, n as u32),
        _ => false,
    }
}

// Whether a part lies in a text of n bytes.
fn lies_inside(n: usize, s: Slot) -> bool
    ensures { result ≡ leb (s.first + s.second) n }
{
    let size = n as u64;
    s.first <= size && s.second <= size - s.first
}

// Whether a present slot holds what its field can hold: else 24.
fn slot_fits(text: &[u8], s: Slot) -> bool
    ensures { result ≡ fits text.now s }
{
    match s.tag {
        tag if is_text(tag) => s.second <= 254 && lies_inside(text.len(), s),
        0x4D => s.second == 8 && lies_inside(text.len(), s),
        0x50.. => code_fits(s.tag, s.first),
        _ => s.first <= 0xFFFF_FFFF,
    }
}

// A slot's fault, if it has one: 24, then 11.
fn slot_fault(text: &[u8], s: Slot) -> Option<Fault>
    ensures { result ≡ slot_fault text.now s }
{
    if s.mark == 0 {
        return None;
    }
    if s.mark != PRESENT || !slot_fits(text, s) {
        return Some(Fault::Barred);
    }
    if is_text(s.tag) {
        let from = s.first as usize;
        let to = from + (s.second as usize);
        if !reads_as_text(&text[from..to]) {
            return Some(Fault::Text);
        }
    }
    None
}

// Of two faults the one that is named: 24 goes before 11, and 11 before 10.
fn graver_of(a: Option<Fault>, b: Option<Fault>) -> Option<Fault>
    ensures { result ≡ graver a b }
{
    match (a, b) {
        (None, _) => b,
        (_, None) => a,
        (Some(f), Some(g)) => Some(if f.number() < g.number() { g } else { f }),
    }
}

// The gravest fault of the slots that some words are, for tags from one on.
fn slots_fault(text: &[u8], words: &[u64], tag: u8) -> Option<Fault>
    requires { tag + length words.now / 3 < 256 }
    ensures { result ≡ slots_fault text.now (slots (length words.now / 3) words.now 0 tag) }
{
    let mut worst = None;
    for i in 0..words.len() / 3 {
        let s = slot_at(words, 3 * i, tag + i as u8);
        worst = graver_of(worst, slot_fault(text, s));
    }
    worst
}

// Whether a slot is present.
fn is_given(ws: &[u64], at: usize) -> bool
    requires { at < length ws.now }
    ensures { result ≡ eqb (get_or ws.now at 0) 1 }
{
    ws[at] == PRESENT
}

// Whether a track is given the null name.
fn has_null_name(track: &[u64]) -> bool
    requires { 23 ≤ length track.now }
    ensures { result ≡ null_name (track_at track.now 0).slots }
{
    is_given(track, NAME) && track[NAME + 2] == 0
}

// Whether a track has 4D, 4E or 4F beside a null name.
fn is_barred(track: &[u64]) -> bool
    requires { 23 ≤ length track.now }
    ensures { result ≡ barred (track_at track.now 0).slots }
{
    has_null_name(track)
        && (is_given(track, AUXILIARY) || is_given(track, VERSION) || is_given(track, MPEG))
}

// A track's own fault: 24 for its type and for what is barred, 10 for 4D beside 4F.
fn own_fault(track: &[u64]) -> Option<Fault>
    requires { 23 ≤ length track.now }
    ensures { result ≡ own_fault (track_at track.now 0) }
{
    if !is_known(track[TYPE]) || is_barred(track) {
        return Some(Fault::Barred);
    }
    if is_given(track, AUXILIARY) && is_given(track, MPEG) {
        return Some(Fault::Twice);
    }
    None
}

// The gravest fault of the tracks and their slots.
fn tracks_fault(text: &[u8], tracks: &[u64]) -> Option<Fault>
    ensures { result ≡ tracks_fault text.now (tracks_given tracks.now) }
{
    let mut worst = None;
    for track in tracks.chunks_exact(TRACK_WORDS) {
        let inner = slots_fault(text, &track[NAME..], 0x4C);
        worst = graver_of(worst, graver_of(own_fault(track), inner));
    }
    worst
}

// The fault of an ID after others, of which the flags tell: 24 over 63, 10 for one of them.
fn id_fault(used: &[bool; 64], id: u64) -> Option<Fault>
    ensures { result ≡ flag_fault used.now id }
{
    if 63 < id {
        Some(Fault::Barred)
    } else if used[id as usize] {
        Some(Fault::Twice)
    } else {
        None
    }
}

// The gravest fault of the tracks' IDs.
fn ids_fault(tracks: &[u64]) -> Option<Fault>
    ensures { result ≡ ids_fault [] (tracks_given tracks.now) }
{
    let mut worst = None;
    let mut used = [false; 64];
    for track in tracks.chunks_exact(TRACK_WORDS) {
        let id = track[ID];
        worst = graver_of(worst, id_fault(&used, id));
        if id <= 63 {
            used[id as usize] = true;
        }
    }
    worst
}

// The fault of the whole input but for 29: 24, then 11, then 10.
pub fn fault(text: &[u8], material: &[u64], tracks: &[u64]) -> Option<Fault>
    ensures { result ≡ fault_of text.now material.now tracks.now }
{
    if material.len() != MATERIAL_WORDS || tracks.len() % TRACK_WORDS != 0 {
        return Some(Fault::Barred);
    }
    let inner = graver_of(
        slots_fault(text, material, 0x40),
        tracks_fault(text, tracks),
    );
    graver_of(inner, ids_fault(tracks))
}

// Whether a media type of 64 bits is known.
fn is_known(media_type: u64) -> bool
    ensures { result ≡ known_type media_type }
{
    media_type <= 255 && media_type::is_known(media_type as u8)
}

// Whether a media type of 64 bits is MPEG video.
fn is_mpeg(media_type: u64) -> bool
    ensures { result ≡ mpeg_type media_type }
{
    media_type <= 255 && media_type::is_mpeg(media_type as u8)
}

// Whether a track has the wrong auxiliary form: 4D for MPEG video, 4F for another type.
fn is_wrong(track: &[u64]) -> bool
    requires { 23 ≤ length track.now }
    ensures { result ≡ given_wrong (track_at track.now 0) }
{
    let form = if is_mpeg(track[TYPE]) {
        AUXILIARY
    } else {
        MPEG
    };
    is_given(track, form)
}

// Whether any track is given the wrong auxiliary form: 29, where `fault` finds nothing.
pub fn any_wrong(tracks: &[u64]) -> bool
    ensures { result ≡ any_wrong (tracks_given tracks.now) }
{
    for track in tracks.chunks_exact(TRACK_WORDS) {
        if is_wrong(track) {
            return true;
        }
    }
    false
}
