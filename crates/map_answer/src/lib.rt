// What the items of a section say: the material answer and the track record, by value.
// It serves the map reader, which hands it parts of a packet; what asks for bounds here is met there for every input.
#![tactic(auto)]

ghost use Rattle.std.specs.Prelude.{◌≡◌, ◌+◌, ◌-◌, ◌<◌, ◌^◌, length};
ghost use Rattle.map_items.specs.Items.{section_of};
ghost use Rattle.plate.specs.Choice.{pick};
ghost use Rattle.map_items.specs.Find.{find, part_of};
ghost use Rattle.map_answer.specs.Answer.{value_of, allowed, code_of, is_progressive, is_null, material_of, track_of};
ghost use Rattle.map_answer.specs.Inside.{InSection, part_bytes};

use map_aspect::Aspect;
use map_items::Part;

// A rate, line or field code: a value of Table 6, −1, −2, or none of these.
#[derive(Clone, Copy, Debug, PartialEq, Eq)]
pub enum Code {
    Is(u8),
    NotApplicable,
    NotAvailable,
    Absent,
}

// The material section: its name's place and stored length, and its five numbers.
#[derive(Clone, Copy, Debug, PartialEq, Eq)]
pub struct Material {
    pub name: Option<Part>,
    pub first: Option<u32>,
    pub last: Option<u32>,
    pub mark_in: Option<u32>,
    pub mark_out: Option<u32>,
    pub size: Option<u32>,
}

// A track: ID and type bare, codes, version, where name, 4D and 4F stand, and the aspect that follows.
#[derive(Clone, Copy, Debug, PartialEq, Eq)]
pub struct Track {
    pub id: u8,
    pub media_type: u8,
    pub rate: Code,
    pub lines: Code,
    pub fields: Code,
    pub version: Option<u32>,
    pub name: Option<Part>,
    pub aux: Option<Part>,
    pub mpeg: Option<Part>,
    pub aspect: Aspect,
}

// A byte less a mark, or 0 where it is under the mark.
pub fn bare(x: u8, mark: u8) -> u8
    ensures { result ≡ x - mark }
{
    x.saturating_sub(mark)
}

// The number of a four-byte item, in a section that begins at place base of its packet.
pub fn value_at(s: &[u8], base: usize, tag: u8) -> Option<u32>
    requires { base + length s.now < 2 ^ 64 }
    ensures { result ≡ value_of (find tag base (section_of s.now).list) }
{
    let item = map_items::found(s, base, tag)?;
    if item.len != 4 {
        return None;
    }
    Some(number::be_at(s, item.at - base, 4) as u32)
}

// Whether Table 6 gives a number a meaning under a tag: a rate, a line code or fields per frame.
pub fn is_allowed(tag: u8, n: u32) -> bool
    ensures { result ≡ allowed tag n }
{
    match (tag, n) {
        (0x50, 1..=8) => true,
        (0x51, 1 | 2 | 4 | 6) => true,
        (0x52, 1 | 2) => true,
        _ => false,
    }
}

// The code that a number is under a tag; a reserved number is no code.
fn code_of(tag: u8, n: u32) -> Code
    ensures { result ≡ code_of tag (Some n) }
{
    match n {
        0xFFFFFFFF => Code::NotApplicable,
        0xFFFFFFFE => Code::NotAvailable,
        _ if is_allowed(tag, n) => Code::Is(n as u8),
        _ => Code::Absent,
    }
}

// The code of an item, in a section that begins at place base of its packet.
pub fn code_at(s: &[u8], base: usize, tag: u8) -> Code
    requires { base + length s.now < 2 ^ 64 }
    ensures { result ≡ code_of tag (value_of (find tag base (section_of s.now).list)) }
{
    match value_at(s, base, tag) {
        Some(n) => code_of(tag, n),
        None => Code::Absent,
    }
}

// Whether a track's fields per frame are 1.
pub fn is_progressive(fields: Code) -> bool
    ensures { result ≡ is_progressive fields }
{
    match fields {
        Code::Is(n) => n == 1,
        _ => false,
    }
}

// Whether a name is the null name: in an accepted section a text of one byte is a lone 00.
pub fn is_null(name: Option<Part>) -> bool
    ensures { result ≡ is_null name }
{
    match name {
        Some(part) => part.len == 1,
        None => false,
    }
}

// The answer of a material section that begins at place base of its packet.
pub fn material_says(s: &[u8], base: usize) -> Material
    requires { base + length s.now < 2 ^ 64 }
    ensures { result ≡ material_of base (section_of s.now).list }
{
    let name = map_items::found(s, base, 0x40);
    let first = value_at(s, base, 0x41);
    let last = value_at(s, base, 0x42);
    let mark_in = value_at(s, base, 0x43);
    let mark_out = value_at(s, base, 0x44);
    let size = value_at(s, base, 0x45);
    Material {
        name,
        first,
        last,
        mark_in,
        mark_out,
        size,
    }
}

// The part of an item by its tag; none under a null name, where the items are not walked again.
fn shown(s: &[u8], base: usize, tag: u8, null: bool) -> Option<Part>
    requires { base + length s.now < 2 ^ 64 }
    ensures { result ≡ pick null None (part_of (find tag base (section_of s.now).list)) }
{
    if null {
        None
    } else {
        map_items::found(s, base, tag)
    }
}

// The version; none under a null name.
fn version(s: &[u8], base: usize, null: bool) -> Option<u32>
    requires { base + length s.now < 2 ^ 64 }
    ensures { result ≡ pick null None (value_of (find 0x4E base (section_of s.now).list)) }
{
    if null { None } else { value_at(s, base, 0x4E) }
}

// The bytes of a part of a section that begins at place base of its packet.
fn part_bytes(s: &[u8], base: usize, x: Option<Part>) -> &[u8]
    requires { InSection s.now base x }
    ensures { result.now ≡ part_bytes s.now base x }
{
    match x {
        Some(part) => {
            let from = part.at - base;
            &s[from..from + part.len]
        }
        None => &s[..0],
    }
}

// The record of a track whose type and ID bytes are these, and whose items begin at place base of the packet.
pub fn record(type_byte: u8, id: u8, s: &[u8], base: usize) -> Track
    requires { base + length s.now < 2 ^ 64 }
    ensures { result ≡ track_of type_byte id base (section_of s.now).list }
{
    let id = bare(id, 0xC0);
    let media_type = bare(type_byte, 0x80);
    let rate = code_at(s, base, 0x50);
    let lines = code_at(s, base, 0x51);
    let fields = code_at(s, base, 0x52);
    let name = map_items::found(s, base, 0x4C);
    let null = is_null(name);
    let version = version(s, base, null);
    let aux = shown(s, base, 0x4D, null);
    let mpeg = shown(s, base, 0x4F, null);
    let bits = part_bytes(s, base, aux);
    let text = part_bytes(s, base, mpeg);
    let aspect = map_aspect::of_track(media_type, bits, text);
    Track {
        id,
        media_type,
        rate,
        lines,
        fields,
        version,
        name,
        aux,
        mpeg,
        aspect,
    }
}
