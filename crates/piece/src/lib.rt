// A piece of a stream: what one packet is to the rules of streams, or its first fault: of its header, 17, of its content.
#![tactic(auto)]

ghost use Rattle.std.specs.Prelude.{◌≡◌, ◌+◌, ◌<◌, ◌≤◌, ◌^◌, length};
ghost use Rattle.packet.specs.Packet.{header_at};
ghost use Rattle.piece.specs.Inside.{media_len};
ghost use Rattle.piece.specs.Piece.{moved, opens, content_of, piece_at};
ghost use Rattle.piece.specs.Seen.{Seeable, seen_at};

use plate::{Fault, Refusal};

// A packet's type and length, and of a media packet its media type, track ID and field number; of any other, zeros.
#[derive(Clone, Copy, Debug, PartialEq, Eq)]
pub struct Piece {
    pub packet_type: u8,
    pub len: usize,
    pub media_type: u8,
    pub track: u8,
    pub field: u32,
}

// A refusal of a packet that stands at a position: places inside the packet get its offset added.
fn refused_at(r: Refusal, at: usize) -> Result<Piece, Refusal>
    requires { r.place + at < 2 ^ 64 }
    ensures { result ≡ Err (moved at r) }
{
    Err(plate::placed(r, r.place + at))
}

// A packet of which the rules of streams ask its type and length alone.
fn plain(packet_type: u8, len: usize) -> Piece
    ensures { result ≡ record { packet_type = packet_type; len = len; media_type = 0; track = 0; field = 0 } }
{
    Piece {
        packet_type,
        len,
        media_type: 0,
        track: 0,
        field: 0,
    }
}

fn map_content(p: &[u8], at: usize) -> Result<Piece, Refusal>
    requires { (16 ≤ length p.now) × (at + length p.now < 2 ^ 64) }
    ensures { result ≡ content_of p.now at 0xBC }
{
    match map::verdict_of(p) {
        Err(r) => refused_at(r, at),
        Ok(()) => Ok(plain(packet::MAP, p.len())),
    }
}

fn locator_content(p: &[u8], at: usize) -> Result<Piece, Refusal>
    requires { (16 ≤ length p.now) × (at + length p.now < 2 ^ 64) }
    ensures { result ≡ content_of p.now at 0xFC }
{
    match locator::table(p) {
        Err(r) => refused_at(r, at),
        Ok(_) => Ok(plain(packet::FLT, p.len())),
    }
}

fn media_content(p: &[u8], at: usize) -> Result<Piece, Refusal>
    requires { (16 ≤ length p.now) × (at + length p.now < 2 ^ 64) }
    ensures { result ≡ content_of p.now at 0xBF }
{
    match media::preamble(p, 0) {
        Err(r) => refused_at(r, at),
        Ok(m) => Ok(Piece {
            packet_type: packet::MEDIA,
            len: p.len(),
            media_type: m.media_type,
            track: m.track,
            field: m.field,
        }),
    }
}

// The content of a whole packet that stands at a position.
fn content(p: &[u8], at: usize, packet_type: u8) -> Result<Piece, Refusal>
    requires { (16 ≤ length p.now) × (at + length p.now < 2 ^ 64) }
    ensures { result ≡ content_of p.now at packet_type }
{
    match packet_type {
        packet::MEDIA => media_content(p, at),
        packet::MAP => map_content(p, at),
        packet::FLT => locator_content(p, at),
        _ => Ok(plain(packet_type, p.len())),
    }
}

// Whether a packet of a type may stand where it does: the first is a map.
fn may_open(first: bool, packet_type: u8) -> bool
    ensures { result ≡ opens first packet_type }
{
    !first || packet_type == packet::MAP
}

// Any packet at a position of a stream: header faults, 17, content faults.
fn any_at(s: &[u8], at: usize, first: bool) -> Result<Piece, Refusal>
    ensures { result ≡ piece_at s.now at first }
{
    let w = packet::header(s, at)?;
    if !may_open(first, w.packet_type) {
        return Err(plate::refuse(Fault::NoMapFirst, at));
    }
    content(&s[at..at + w.len], at, w.packet_type)
}

// The length of the whole media packet at a position, if there is one.
fn media_len(s: &[u8], at: usize) -> Option<usize>
    ensures { result ≡ media_len (header_at s.now at) }
{
    match packet::header(s, at) {
        Ok(w) if w.packet_type == packet::MEDIA => Some(w.len),
        _ => None,
    }
}

// The packet at a position of a stream: header faults, 17, content faults. Most are media packets, which are seen to here: what is none, or is refused, is read
// once more, so that no refusal of a header is carried along with every packet.
pub fn piece_at(s: &[u8], at: usize, first: bool) -> Result<Piece, Refusal>
    ensures { result ≡ piece_at s.now at first }
{
    let Some(n) = media_len(s, at) else {
        return any_at(s, at, first);
    };
    if first {
        return Err(plate::refuse(Fault::NoMapFirst, at));
    }
    media_content(&s[at..at + n], at)
}

// The piece at an offset where `piece_at` gave one, by its bytes alone: for who has checked the stream, and tests nothing twice.
pub fn seen_at(s: &[u8], at: usize) -> Piece
    requires { Seeable s.now at }
    ensures { result ≡ seen_at s.now at }
{
    let packet_type = s[at + 5];
    let len = number::be4(s, at + 6);
    if packet_type == packet::MEDIA {
        let field = number::be4(s, at + 18);
        return Piece {
            packet_type: packet::MEDIA,
            len,
            media_type: s[at + 16],
            track: s[at + 17],
            field: field as u32,
        };
    }
    plain(packet_type, len)
}
