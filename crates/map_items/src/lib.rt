// The items of a map's material section or of a track: tag, length and that many bytes, judged in walk order and found by tag.
// It serves the map reader, which hands it parts of a packet; what asks for bounds here is met there for every input.
#![tactic(auto)]

ghost use Rattle.std.specs.Prelude.{◌≡◌, true, ◌+◌, ◌<◌, ◌^◌, length};
ghost use Rattle.map_items.specs.Items.{section_of};
ghost use Rattle.map_items.specs.Judge.{form_of, is_known, fault_of, counts_as, verdict_of};
ghost use Rattle.plate.specs.Plate.{refusal};
ghost use Rattle.map_items.specs.Find.{part_of, find};

use plate::{Fault, Refusal};

// Where items stand: a tag known in one is unknown in the other.
#[derive(Clone, Copy, Debug, PartialEq, Eq)]
pub enum Section {
    Material,
    Track,
}

// What a tag asks of its item: text, a number of bytes, or nothing.
#[derive(Clone, Copy, Debug, PartialEq, Eq)]
pub enum Form {
    Text,
    Sized(usize),
    Unknown,
}

// Where some bytes of a packet stand, and how many there are: an item's value, its stored length.
#[derive(Clone, Copy, Debug, PartialEq, Eq)]
pub struct Part {
    pub at: usize,
    pub len: usize,
}

pub fn refused(fault: Fault, place: usize) -> Result<(), Refusal>
    ensures { result ≡ Err (refusal fault place) }
{
    Err(plate::refuse(fault, place))
}

// What a tag asks in a section.
pub fn asked_of(section: Section, tag: u8) -> Form
    ensures { result ≡ form_of section tag }
{
    match section {
        Section::Material => match tag {
            0x40 => Form::Text,
            0x41..=0x45 => Form::Sized(4),
            _ => Form::Unknown,
        },
        Section::Track => match tag {
            0x4C | 0x4F => Form::Text,
            0x4D => Form::Sized(8),
            0x4E | 0x50..=0x52 => Form::Sized(4),
            _ => Form::Unknown,
        },
    }
}

// Whether the tag of a form is known.
pub fn is_known(asked: Form) -> bool
    ensures { result ≡ is_known asked }
{
    match asked {
        Form::Text => true,
        Form::Sized(_) => true,
        Form::Unknown => false,
    }
}

// What is wrong with an item by itself: its size, or its text; or nothing.
pub fn fault(asked: Form, value: &[u8]) -> Option<Fault>
    ensures { result ≡ fault_of asked value.now }
{
    match asked {
        Form::Text if !text::is_text(value) => Some(Fault::Text),
        Form::Sized(n) if value.len() != n => Some(Fault::ItemSize),
        _ => None,
    }
}

// The tag that an item counts as where one may not stand twice: 4F counts as 4D.
pub fn counts_as(tag: u8) -> u8
    ensures { result ≡ counts_as tag }
{
    if tag == 0x4F { 0x4D } else { tag }
}

// The first fault of a section that begins at place base of its packet.
pub fn judge(section: Section, s: &[u8], base: usize) -> Result<(), Refusal>
    requires { base + length s.now < 2 ^ 64 }
    ensures { result ≡ verdict_of section s.now base }
{
    let mut seen = [false; 19];
    let mut at: usize = 0;
    while at < s.len() {
        let left = s.len() - at;
        if left < 2 {
            return refused(Fault::Overhang, base + at);
        }
        let tag = s[at];
        let n = number::wide(s[at + 1]);
        if left - 2 < n {
            return refused(Fault::Overhang, base + at);
        }
        let a = at + 2;
        let e = a + n;
        let asked = asked_of(section, tag);
        if let Some(wrong) = fault(asked, &s[a..e]) {
            return refused(wrong, base + at);
        }
        if is_known(asked) {
            let k = number::wide(counts_as(tag)) - 0x40;
            if seen[k] {
                return refused(Fault::Twice, base + at);
            }
            seen[k] = true;
        }
        at = e;
    }
    Ok(())
}

// The first item of a tag in a section that begins at place base of its packet: where its bytes stand, and how many.
pub fn found(s: &[u8], base: usize, tag: u8) -> Option<Part>
    requires { base + length s.now < 2 ^ 64 }
    ensures { result ≡ part_of (find tag base (section_of s.now).list) }
{
    let mut at: usize = 0;
    while at < s.len() {
        let left = s.len() - at;
        if left < 2 {
            return None;
        }
        let n = number::wide(s[at + 1]);
        if left - 2 < n {
            return None;
        }
        if s[at] == tag {
            return Some(Part {
                at: base + at + 2, // behind its tag and length
                len: n,
            });
        }
        at = at + 2 + n;
    }
    None
}

// The same in a section that ends where an item ends, as an accepted one does: no length is tested again.
pub fn found_in_whole(s: &[u8], base: usize, tag: u8) -> Option<Part>
    requires { (base + length s.now < 2 ^ 64) × ((section_of s.now).end ≡ true) }
    ensures { result ≡ part_of (find tag base (section_of s.now).list) }
{
    let mut at: usize = 0;
    while at < s.len() {
        let n = number::wide(s[at + 1]);
        if s[at] == tag {
            return Some(Part {
                at: base + at + 2,
                len: n,
            });
        }
        at = at + 2 + n;
    }
    None
}
