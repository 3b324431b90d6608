// What a media description of a UMF says of its segment, by value: track, fields and marks, name, type, rate, size, and the specification of its type.
#![tactic(auto)]

ghost use Rattle.std.specs.Prelude.{◌≡◌, ◌+◌, ◌≤◌, ◌<◌, ◌^◌, length};
ghost use Rattle.number.specs.Number.{le};
ghost use Rattle.map_items.specs.Judge.{has};
ghost use Rattle.umf_answer.specs.Says.{shown_if};
ghost use Rattle.segment.specs.Segment.{one_of, allowed, shown, is_type, rates_of, sizes_of, is_mask, number_of, in_range, level_of, mpeg_of, audio_of, jpeg_of, specification_of, name_from, segment_of, segment_at};

use map_items::Part;
use plate::Refusal;
use umf::Described;

// Color difference format, GOP structure, frame or field structure, target pictures, attributes.
#[derive(Clone, Copy, Debug, PartialEq, Eq)]
pub struct Mpeg {
    pub format: Option<u32>,
    pub gop: Option<u32>,
    pub structure: Option<u32>,
    pub i_pictures: u32,
    pub p_pictures: u32,
    pub b_pictures: u32,
    pub attributes: Option<u32>,
}

// The level to play at and the one to end at, and the fields over which to come to each.
#[derive(Clone, Copy, Debug, PartialEq)]
pub struct Audio {
    pub level: Option<f64>,
    pub end_level: Option<f64>,
    pub ramp_up: u32,
    pub ramp_down: u32,
}

// The levels of quantification: most and least, of color difference and luma.
#[derive(Clone, Copy, Debug, PartialEq)]
pub struct Jpeg {
    pub most_color: Option<f64>,
    pub most_luma: Option<f64>,
    pub least_color: Option<f64>,
    pub least_luma: Option<f64>,
}

// What a type of segment specifies; ancillary data without a word.
#[derive(Clone, Copy, Debug, PartialEq)]
pub enum Specification {
    OfMpeg(Mpeg),
    OfTimeCode(Option<u32>),
    OfAudio(Audio),
    OfDv(Option<u32>),
    OfAvc(Option<u32>),
    OfJpeg(Jpeg),
    OfAncillary,
}

#[derive(Clone, Copy, Debug, PartialEq)]
pub struct Segment {
    pub track: Option<u32>,
    pub sequence: u32,
    pub fields: u32,
    pub mark_in: u32,
    pub mark_out: u32,
    // Where the source device's name stands in the packet, and its length without the 00.
    pub name: Option<Part>,
    pub media: Option<u32>,
    pub rate: Option<u32>,
    pub size: Option<u32>,
    pub specification: Option<Specification>,
}

// Whether a number is a type of media track.
fn is_type(t: u32) -> bool
    ensures { result ≡ is_type t }
{
    matches!(t, 1..=11)
}

// Whether a number is a sampling rate of a type.
fn is_rate(t: u32, n: u32) -> bool
    ensures { result ≡ has n (rates_of t) }
{
    match t {
        2 => n == 48000,
        8 => matches!(n, 392822 | 327680 | 280587 | 234057),
        _ => is_type(t) && matches!(n, 60 | 50 | 25 | 30 | 24),
    }
}

// Whether a number is a sample size or data rate of a type.
#[tactic(auto, unfolding(crate::specs::Segment::sizes_of, crate::specs::Segment::allowed, map_items::specs::Judge::has))]
fn is_size(t: u32, n: u32) -> bool
    ensures { result ≡ allowed (sizes_of t) n }
{
    match t {
        2 => matches!(n, 16 | 24),
        3 => matches!(n, 16 | 32 | 64),
        5 => n == 25000000,
        6 => n == 50000000,
        8 => matches!(n, 10 | 14),
        10 => n == 100000000,
        11 => matches!(n, 50000000 | 100000000),
        _ => is_type(t),
    }
}

// A number where it is in its list, else absent.
fn listed(list: &[u32], n: u32) -> Option<u32>
    ensures { result ≡ shown (one_of list.now) n }
{
    umf_answer::shown_if(umf_answer::is_in(list, n), n)
}

// Attributes that are or-ed together: the low six bits of one list, the aspect of another, and above them nothing or an active format descriptor.
fn is_mask(lows: &[u32], aspects: &[u32], n: u32) -> bool
    ensures { result ≡ is_mask lows.now aspects.now n }
{
    umf_answer::is_in(lows, n % 64)
        && umf_answer::is_in(aspects, n / 64 % 4)
        && matches!(n / 256, 0 | 0x80..=0x8F)
}

// Such attributes where they are of the lists, else absent.
fn attributes(lows: &[u32], aspects: &[u32], n: u32) -> Option<u32>
    ensures { result ≡ shown_if (is_mask lows.now aspects.now n) n }
{
    umf_answer::shown_if(is_mask(lows, aspects, n), n)
}

// The float of its bits; absent where they are of none: no float may be made of those.
fn number_of(bits: u64) -> Option<f64>
    ensures { result ≡ number_of bits }
{
    if bits % 0x8000000000000000 <= 0x7FF0000000000000 {
        return Some(f64::from_bits(bits));
    }
    None
}

// A float from 0.0 to 8.0; another is absent, and not brought to an end of the range.
fn in_range(x: f64) -> Option<f64>
    ensures { result ≡ in_range x }
{
    if 0.0 <= x && x <= 8.0 {
        return Some(x);
    }
    None
}

fn level_of(bits: u64) -> Option<f64>
    ensures { result ≡ level_of bits }
{
    in_range(number_of(bits)?)
}

// The text at the start of some bytes that begin at place q of the packet: it ends before the first 00.
fn text_at(s: &[u8], q: usize) -> Option<Part>
    ensures { result ≡ name_from q 0 s.now }
{
    let len = s.iter().position(|&b| b == 0 || 0x7F < b)?;
    if s[len] != 0 {
        return None;
    }
    Some(Part { at: q, len })
}

// A media description: its 128 bytes of fields, and the 32 of a specification.
#[derive(Clone, Copy)]
struct Description<'a> {
    bytes: &'a [u8],
    ghost whole: { 160 ≤ length bytes.now },
}

impl Description<'_> {
    fn mpeg(&self) -> Mpeg
        ensures { result ≡ mpeg_of self.now.bytes.now }
    {
        let d = self.bytes;
        Mpeg {
            format: listed(&[1, 2], umf_answer::word(d, 128)),
            gop: listed(&[0, 1, 0xFF], umf_answer::word(d, 132)),
            structure: listed(&[0, 1, 2, 3], umf_answer::word(d, 136)),
            i_pictures: umf_answer::word(d, 140),
            p_pictures: umf_answer::word(d, 144),
            b_pictures: umf_answer::word(d, 148),
            attributes: attributes(&[0, 1, 2, 4], &[0, 1, 2], umf_answer::word(d, 152)),
        }
    }

    fn audio(&self) -> Audio
        ensures { result ≡ audio_of self.now.bytes.now }
    {
        let d = self.bytes;
        Audio {
            level: level_of(number::le8(d, 128) as u64),
            end_level: level_of(number::le8(d, 136) as u64),
            ramp_up: umf_answer::word(d, 144),
            ramp_down: umf_answer::word(d, 148),
        }
    }

    fn jpeg(&self) -> Jpeg
        ensures { result ≡ jpeg_of self.now.bytes.now }
    {
        let d = self.bytes;
        Jpeg {
            most_color: number_of(number::le8(d, 128) as u64),
            most_luma: number_of(number::le8(d, 136) as u64),
            least_color: number_of(number::le8(d, 144) as u64),
            least_luma: number_of(number::le8(d, 152) as u64),
        }
    }

    // The specification of a type.
    fn specification(&self, t: u32) -> Option<Specification>
        ensures { result ≡ specification_of t self.now.bytes.now }
    {
        match t {
            4 | 7 | 9 => Some(Specification::OfMpeg(self.mpeg())),
            3 => {
                let drop = listed(&[0, 1, 0xFF], umf_answer::word(self.bytes, 128));
                Some(Specification::OfTimeCode(drop))
            }
            2 => Some(Specification::OfAudio(self.audio())),
            5 | 6 | 10 => {
                let kind = attributes(&[0, 0x20], &[0, 1, 2], umf_answer::word(self.bytes, 128));
                Some(Specification::OfDv(kind))
            }
            11 => {
                let kind = attributes(&[0], &[0, 2], umf_answer::word(self.bytes, 128));
                Some(Specification::OfAvc(kind))
            }
            1 => Some(Specification::OfJpeg(self.jpeg())),
            8 => Some(Specification::OfAncillary),
            _ => None,
        }
    }

    // What it says of its segment, where it begins at place q of the packet.
    fn segment(&self, q: usize) -> Segment
        requires { q + length self.now.bytes.now < 2 ^ 64 }
        ensures { result ≡ segment_of q self.now.bytes.now }
    {
        let d = self.bytes;
        let track = umf_answer::half(d, 2);
        let t = umf_answer::word(d, 112);
        let rate = umf_answer::word(d, 116);
        let size = umf_answer::word(d, 120);
        Segment {
            track: umf_answer::shown_if(umf_answer::is_track(track), track),
            sequence: umf_answer::half(d, 4),
            fields: umf_answer::word(d, 8),
            mark_in: umf_answer::word(d, 16),
            mark_out: umf_answer::word(d, 20),
            name: text_at(&d[24..112], q + 24),
            media: umf_answer::shown_if(is_type(t), t),
            rate: umf_answer::shown_if(is_rate(t, rate), rate),
            size: umf_answer::shown_if(is_size(t, size), size),
            specification: self.specification(t),
        }
    }
}

// A segment of the UMF packet at a position, by its number from 0: refusals 1 to 6, 30, then 16.
pub fn segment_at(s: &[u8], at: usize, n: usize) -> Result<Segment, Refusal>
    ensures { result ≡ segment_at s.now at n }
{
    let part = umf::place(s, at, Described::Segments, n)?;
    let from = at + part.at;
    let to = from + part.len;
    let description = Description {
        bytes: &s[from..to],
    };
    Ok(description.segment(part.at))
}
