// The UMF packet: its preamble, and of a whole UMF the sections of tracks, segments and user records, taken apart by lengths, judged in order, and where each stands.
#![tactic(auto)]

ghost use Rattle.std.specs.Prelude.{◌≡◌, false, ◌+◌, ◌≤◌, ◌<◌, ◌^◌, length, eqb};
ghost use Rattle.plate.specs.Choice.{pick};
ghost use Rattle.number.specs.Number.{le};
ghost use Rattle.umf.specs.Split.{least_of, stated_of, is_counted, step_of, split_of};
ghost use Rattle.umf.specs.Inside.{walked_of};
ghost use Rattle.map_items.specs.Find.{part_of};
ghost use Rattle.umf.specs.Umf.{offset_at, section_at, section_size, count_of, parts_of, section_verdict, sections_verdict, payload_verdict, umf_verdict, nth_from, nth_of, nth_in, if_accepted, asked_at, place_of};

use map_items::Part;
use plate::{Fault, Refusal};

// What a section has: track descriptions, media descriptions of segments, or user data records.
#[derive(Clone, Copy, Debug, PartialEq, Eq)]
pub enum Described {
    Tracks,
    Segments,
    Users,
}

impl Described {
    // The bytes of its fixed fields.
    fn least(self) -> usize
        ensures { result ≡ least_of self }
    {
        match self {
            Described::Tracks => 4,
            Described::Segments => 160,
            Described::Users => 18,
        }
    }

    // The length that it states, or that all have.
    fn stated(self, d: &[u8]) -> usize
        requires { least_of self ≤ length d.now }
        ensures { result ≡ stated_of self d.now }
    {
        match self {
            Described::Tracks => 4,
            Described::Segments => number::le_at(d, 0, 2),
            Described::Users => number::le4(d, 0),
        }
    }

    // Whether the rest of a section is used up, where that ends it.
    fn is_used(self, left: usize) -> bool
        ensures { result ≡ pick (is_counted self) false (eqb left 0) }
    {
        match self {
            Described::Users => left == 0,
            _ => false,
        }
    }

    fn next(self, d: &[u8]) -> Step
        ensures { result ≡ step_of self d.now }
    {
        let left = d.len();
        if self.is_used(left) {
            return Step::Used;
        }
        let fixed = self.least();
        if left < fixed {
            return Step::Over;
        }
        let m = self.stated(d);
        if m < fixed || left < m {
            return Step::Over;
        }
        Step::More(m)
    }

    // A walk of a section, past at most so many.
    fn walk(self, d: &[u8], count: usize) -> Walked
        ensures { result ≡ walked_of (split_of self count d.now) }
    {
        let mut at: usize = 0;
        for i in 0..count {
            match self.next(&d[at..]) {
                Step::More(m) => at += m,
                Step::Used => {
                    return Walked {
                        number: i,
                        bytes: at,
                        whole: true,
                    };
                }
                Step::Over => {
                    return Walked {
                        number: i,
                        bytes: at,
                        whole: false,
                    };
                }
            }
        }
        Walked {
            number: count,
            bytes: at,
            whole: true,
        }
    }

    // Where the payload description has a section's offset, with its size behind.
    fn offset_at(self) -> usize
        ensures { (result ≡ offset_at self) × (result ≤ 40) }
    {
        match self {
            Described::Tracks => 0x0C,
            Described::Segments => 0x18,
            Described::Users => 0x20,
        }
    }
}

// What stands at the start of the rest of a section: one more, of so many bytes; nothing, and nothing has to; or one that does not fit.
#[derive(Clone, Copy, Debug, PartialEq, Eq)]
pub enum Step {
    More(usize),
    Used,
    Over,
}

// A walk of a section: how many there are, the bytes that they take, and whether none was met that does not fit; both numbers hold either way.
#[derive(Clone, Copy, Debug, PartialEq, Eq)]
pub struct Walked {
    pub number: usize,
    pub bytes: usize,
    pub whole: bool,
}

// Number n, from 0, of a section that begins at place base of its packet: its place, and its length.
fn nth_part(d: &[u8], kind: Described, count: usize, n: usize, base: usize) -> Option<Part>
    requires { base + length d.now < 2 ^ 64 }
    ensures { result ≡ part_of (nth_from base n (split_of kind count d.now).list) }
{
    if count <= n {
        return None;
    }
    let w = kind.walk(d, n);
    match kind.next(&d[w.bytes..]) {
        Step::More(len) => Some(Part {
            at: base + w.bytes,
            len,
        }),
        Step::Used | Step::Over => None,
    }
}

// A number of four bytes of a payload.
fn word(y: &[u8], at: usize) -> usize
    requires { at + 4 ≤ length y.now }
    ensures { (result ≡ le y.now at 4) × (result < 2 ^ 32) }
{
    number::le4(y, at)
}

// A payload that has its description, 48 bytes.
#[derive(Clone, Copy)]
struct Payload<'a> {
    bytes: &'a [u8],
    ghost described: { 48 ≤ length bytes.now },
}

impl Payload<'_> {
    // Where it says that a section stands, and how long that is.
    fn section(&self, kind: Described) -> Part
        ensures { (result.at ≡ section_at kind self.now.bytes.now) × (result.at < 2 ^ 32) × (result.len ≡ section_size kind self.now.bytes.now) × (result.len < 2 ^ 32) }
    {
        let o = kind.offset_at();
        Part {
            at: word(self.bytes, o),
            len: word(self.bytes, o + 4),
        }
    }

    // How many a section is to have; of user records, whose number is not stated, no more than bytes.
    fn count(&self, kind: Described) -> usize
        ensures { result ≡ count_of kind self.now.bytes.now }
    {
        let y = self.bytes;
        match kind {
            Described::Tracks => number::le4(y, 0x08),
            Described::Segments => number::le4(y, 0x14),
            Described::Users => number::le4(y, 0x24),
        }
    }

    // The verdict on a section, and on what is in it.
    fn section_verdict(&self, kind: Described) -> Result<(), Refusal>
        ensures { result ≡ section_verdict kind self.now.bytes.now }
    {
        let section = self.section(kind);
        let to = section.at + section.len;
        if self.bytes.len() < to {
            return map_items::refused(Fault::UmfForm, 21 + section.at);
        }
        let w = kind.walk(&self.bytes[section.at..to], self.count(kind));
        if w.whole {
            return Ok(());
        }
        map_items::refused(Fault::UmfForm, 21 + section.at + w.bytes)
    }

    // The verdict on the sections, in their order.
    fn sections_verdict(&self) -> Result<(), Refusal>
        ensures { result ≡ sections_verdict self.now.bytes.now }
    {
        self.section_verdict(Described::Tracks)?;
        self.section_verdict(Described::Segments)?;
        self.section_verdict(Described::Users)
    }

    // Number n, from 0, of a section of the kind that lies in it: its place in the packet, and its length.
    fn nth(&self, kind: Described, n: usize) -> Option<Part>
        requires { section_at kind self.now.bytes.now + section_size kind self.now.bytes.now ≤ length self.now.bytes.now }
        ensures { result ≡ part_of (nth_of kind n self.now.bytes.now) }
    {
        let section = self.section(kind);
        let to = section.at + section.len;
        nth_part(
            &self.bytes[section.at..to],
            kind,
            self.count(kind),
            n,
            21 + section.at,
        )
    }
}

// The verdict on the payload of a whole UMF.
fn payload_verdict(y: &[u8]) -> Result<(), Refusal>
    ensures { result ≡ payload_verdict y.now }
{
    if y.len() < 48 {
        return map_items::refused(Fault::UmfForm, 21);
    }
    if y.len() < 104 {
        return map_items::refused(Fault::UmfForm, 69);
    }
    Payload { bytes: y }.sections_verdict()
}

// The verdict on a UMF packet's bytes.
pub fn verdict_of(p: &[u8]) -> Result<(), Refusal>
    ensures { result ≡ umf_verdict p.now }
{
    if p.len() < 21 {
        return map_items::refused(Fault::UmfForm, 16);
    }
    let n = number::be4(p, 17);
    if p.len() - 21 < n {
        return map_items::refused(Fault::UmfForm, 16);
    }
    if p[16] != 3 {
        return Ok(());
    }
    let end = 21 + n;
    payload_verdict(&p[21..end])
}

// How many descriptions or records of a kind a payload has whose section of the kind lies in it.
pub fn number_of(y: &[u8], kind: Described) -> usize
    requires { (48 ≤ length y.now) × (section_at kind y.now + section_size kind y.now ≤ length y.now) }
    ensures { result ≡ length (parts_of kind y.now).list }
{
    let payload = Payload { bytes: y };
    let section = payload.section(kind);
    let to = section.at + section.len;
    kind.walk(&y[section.at..to], payload.count(kind)).number
}

// Number n of a packet that `verdict_of` accepts; none where it is not opened.
fn nth_in(p: &[u8], kind: Described, n: usize) -> Option<Part>
    requires { umf_verdict p.now ≡ (Ok tt) }
    ensures { result ≡ part_of (nth_in kind n p.now) }
{
    if p[16] != 3 {
        return None;
    }
    let end = 21 + number::be4(p, 17);
    let payload = Payload { bytes: &p[21..end] };
    payload.nth(kind, n)
}

// The same of a packet's bytes: 30, then 16 where there is no such.
fn nth_of(p: &[u8], kind: Described, n: usize) -> Result<Part, Refusal>
    ensures { result ≡ place_of (if_accepted kind n p.now (umf_verdict p.now)) }
{
    verdict_of(p)?;
    nth_in(p, kind, n).ok_or(plate::refuse(Fault::NotThere, 0))
}

// Number n, from 0, of the UMF packet at a position: refusals 1 to 6, 30, then 16 where there is no such or the UMF is not opened. The place counts from the packet's first byte.
pub fn place(s: &[u8], at: usize, kind: Described, n: usize) -> Result<Part, Refusal>
    ensures { result ≡ place_of (asked_at s.now at kind n) }
{
    let w = packet::of_type(s, at, packet::UMF)?;
    let end = at + w.len;
    nth_of(&s[at..end], kind, n)
}
