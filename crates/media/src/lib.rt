// The media preamble: what the first sixteen payload bytes of a media packet say.
#![tactic(auto)]

ghost use Rattle.std.specs.Prelude.{◌≡◌};
ghost use Rattle.media.specs.Media.{preamble_of, preamble_at};

use plate::{Fault, Refusal};

// Media type and track ID, bare; media field number, field information, time line field number, flags.
#[derive(Clone, Copy, PartialEq, Eq, Debug)]
pub struct Media {
    pub media_type: u8,
    pub track: u8,
    pub field: u32,
    pub info: u32,
    pub timeline: u32,
    pub flags: u8,
}

// The preamble in the bytes of a packet whose header was read and that stands at a position; whether its type is known is the crate media_type's matter.
#[tactic(auto, unfolding(crate::specs::Media::preamble_of))]
pub fn preamble(p: &[u8], at: usize) -> Result<Media, Refusal>
    ensures { result ≡ preamble_of p.now at }
{
    let payload = number::left(p, 16);
    if payload < 16 {
        return Err(plate::refuse(Fault::Overhang, 16));
    }
    let track = p[17];
    if 63 < track {
        return Err(plate::refuse(Fault::TypeOrId, at));
    }
    Ok(Media {
        media_type: p[16],
        track,
        field: number::be4(p, 18) as u32,
        info: number::be4(p, 22) as u32,
        timeline: number::be4(p, 26) as u32,
        flags: p[30],
    })
}

// The preamble of the packet at a position: refusals 1 to 6 first.
#[tactic(auto, unfolding(crate::specs::Media::preamble_at))]
pub fn read(s: &[u8], at: usize) -> Result<Media, Refusal>
    ensures { result ≡ preamble_at s.now at }
{
    let p = packet::of_type(s, at, packet::MEDIA)?;
    preamble(&s[at..at + p.len], at)
}
