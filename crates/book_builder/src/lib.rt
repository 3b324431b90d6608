// The builder of the seek book: one record a media packet of known type, in stream order, into a lent buffer.
#![tactic(auto)]

ghost use Rattle.std.specs.Prelude.{◌≡◌, ◌+◌, ◌*◌, ◌≤◌, length, true};
ghost use Rattle.std.proofs.lemmas.List.Edits.{sets};
ghost use Rattle.plate.specs.Choice.{pick};
ghost use Rattle.media_type.specs.MediaType.{known_type};
ghost use Rattle.field.specs.Field.{type_with, carries_two};
ghost use Rattle.book.specs.Book.{record_bytes, book_bytes};
ghost use Rattle.book_builder.specs.BookBuilder.{recorded, entries_here, entries_in, build_answer, built_in};
ghost use Rattle.book_builder.specs.Inside.{Accepted};

use book::Entry;
use map_tracks::Types;
use piece::Piece;
use plate::{Fault, Refusal};

// Whether a packet has a record: media of known type.
fn is_recorded(x: Piece) -> bool
    ensures { result ≡ recorded x }
{
    x.packet_type == packet::MEDIA && media_type::is_known(x.media_type)
}

// How many records a packet has.
fn records_of(x: Piece) -> usize
    ensures { result ≡ pick (recorded x) 1 0 }
{
    if is_recorded(x) { 1 } else { 0 }
}

// The number of records of a stream that the check accepts.
fn count(s: &[u8]) -> usize
    requires { Accepted s.now }
    ensures { result ≡ length (entries_in s.now) }
{
    let mut at: usize = 0;
    let mut n: usize = 0;
    while at < s.len() {
        let x = piece::seen_at(s, at);
        n += records_of(x);
        at += x.len;
    }
    n
}

// Writes a record.
fn put_record(out: &mut [u8], to: usize, e: Entry)
    requires { to + 16 ≤ length out.old }
    ensures { out.new ≡ sets out.old to (record_bytes e) }
{
    out[to] = 0x47;
    out[to + 1] = 0x58;
    out[to + 2] = e.track;
    out[to + 3] = e.media_type;
    number::put_le(out, to + 4, e.field, 4);
    number::put_le(out, to + 8, e.at, 8);
}

// The type of a packet's record: with the mark where it carries two fields, by the marked type of its ID.
fn marked_type(x: Piece, listed: u8) -> u8
    requires { known_type x.media_type ≡ true }
    ensures { result ≡ type_with (carries_two listed x.field) x.media_type }
{
    field::type_with(field::carries_two(listed, x.field as u64), x.media_type)
}

// Writes the record of a packet at an offset, if it has one; the place after it.
fn put_records(out: &mut [u8], to: usize, x: Piece, at: usize, listed: u8) -> usize
    requires { to + 16 * length (entries_here at listed x) ≤ length out.old }
    ensures { (result ≡ to + 16 * length (entries_here at listed x)) × (out.new ≡ sets out.old to (book_bytes (entries_here at listed x))) }
{
    if is_recorded(x) {
        let media_type = marked_type(x, listed);
        put_record(
            out,
            to,
            Entry {
                track: x.track,
                media_type,
                field: x.field as usize,
                at,
            },
        );
        return to + 16;
    }
    to
}

// Writes the records of a stream that the check accepts.
fn write(out: &mut [u8], s: &[u8])
    requires { Accepted s.now × (16 * length (entries_in s.now) ≤ length out.old) }
    ensures { out.new ≡ sets out.old 0 (book_bytes (entries_in s.now)) }
{
    let mut at: usize = 0;
    let mut to: usize = 0;
    let mut types = Types {
        media_types: [0u8; 64],
    };
    while at < s.len() {
        let x = piece::seen_at(s, at);
        let e = at + x.len;
        if x.packet_type == packet::MAP {
            types = map::types_of(&s[at..e]);
        }
        to = put_records(out, to, x, at, types.media_types[x.track as usize]);
        at = e;
    }
}

// The book of a stream: the check's refusal first, then 13 where the buffer is too small, else the records, written, and their number.
pub fn build(out: &mut [u8], s: &[u8]) -> Result<usize, Refusal>
    ensures { (result ≡ build_answer out.old s.now) × (out.new ≡ built_in out.old s.now) }
{
    stream::check(s)?;
    let n = count(s);
    if out.len() / 16 < n {
        return Err(plate::refuse(Fault::Room, 0));
    }
    write(out, s);
    Ok(n)
}
