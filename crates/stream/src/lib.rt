// The check of a whole stream in one pass, and seek: the first media packet that carries a field of a track.
#![tactic(auto)]

ghost use Rattle.std.specs.Prelude.{◌≡◌, true, false, ◌<◌, length, get_or};
ghost use Rattle.plate.specs.Plate.{refusal};
ghost use Rattle.stream.specs.Stream.{carries_piece, ran_out, check_of, seek_of};
ghost use Rattle.stream.specs.Inside.{or_first, first_here, run_of};

use map_tracks::Types;
use order::{Progress, Step};
use piece::Piece;
use plate::{Fault, Refusal};

// What one pass over an accepted stream gives: its packets, and the first that carries a field of a track.
#[derive(Clone, Copy, Debug, PartialEq, Eq)]
pub struct Pass {
    pub count: usize,
    pub first: Option<usize>,
}

// Whether a packet carries a field of a track, by the marked types of the latest map: its type is known, its ID is the track's, and its number is the field's or, where it carries two, the one below.
// Most packets have another number: halves are tested first, as both fields of a packet have one half, and the table is read last.
fn carries(x: Piece, types: &[u8], track: u64, field: u64) -> bool
    requires { x.track < length types.now }
    ensures { result ≡ carries_piece track field (get_or types.now x.track 0) x }
{
    if x.packet_type != packet::MEDIA {
        return false;
    }
    if x.field as u64 / 2 != field / 2 {
        return false;
    }
    if x.track as u64 != track {
        return false;
    }
    media_type::is_known(x.media_type)
        && field::by_half(types[x.track as usize], x.field as u64, field)
}

// The first carrier so far, with one packet more.
fn first_with(
    first: Option<usize>,
    x: Piece,
    at: usize,
    types: &[u8],
    track: u64,
    field: u64,
) -> Option<usize>
    requires { x.track < length types.now }
    ensures { result ≡ or_first first (first_here track field (get_or types.now x.track 0) x at) }
{
    if first.is_none() && carries(x, types, track, field) {
        return Some(at);
    }
    first
}

// Bytes have run out: 17 at the start, 18 later.
fn ran_out(count: usize, len: usize) -> Refusal
    ensures { result ≡ ran_out count len }
{
    if count == 0 {
        return plate::refuse(Fault::NoMapFirst, 0);
    }
    plate::refuse(Fault::StreamEnd, len)
}

// One pass over a stream.
fn one_pass(s: &[u8], track: u64, field: u64) -> Result<Pass, Refusal>
    ensures { result ≡ run_of s.now track field }
{
    let mut at: usize = 0;
    let mut p = order::start();
    let mut types = Types {
        media_types: [0u8; 64],
    };
    let mut first = None;
    while at < s.len() {
        let x = piece::piece_at(s, at, p.count == 0)?;
        let e = at + x.len;
        if x.packet_type == packet::MAP {
            types = map::types_of(&s[at..e]);
        }
        first = first_with(first, x, at, &types.media_types, track, field);
        let listed = field::type_alone(types.media_types[x.track as usize]);
        match order::take_step(p, x, at, listed, e < s.len())? {
            Step::Ended(count) => {
                return Ok(Pass { count, first });
            }
            Step::Next(next) => {
                p = next;
            }
        }
        at = e;
    }
    Err(ran_out(p.count, s.len()))
}

// The number of packets of a stream, or its first fault.
pub fn check(s: &[u8]) -> Result<usize, Refusal>
    ensures { result ≡ check_of s.now }
{
    let pass = one_pass(s, 64, 0)?;
    Ok(pass.count)
}

// The offset of the first packet that carries a field of a track; the check's refusal first, 16 where none carries it.
pub fn seek(s: &[u8], track: u64, field: u64) -> Result<usize, Refusal>
    ensures { result ≡ seek_of s.now track field }
{
    let pass = one_pass(s, track, field)?;
    pass.first.ok_or(plate::refuse(Fault::NotThere, 0))
}
