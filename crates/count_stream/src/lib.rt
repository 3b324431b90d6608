// Functions for C by which bench/ counts instructions: the check, and the look-up in a seek book. They are not in the library for C.
#![tactic(auto)]

ghost use Rattle.std.specs.Prelude.{◌≡◌};
ghost use Rattle.stream.specs.Stream.{check_of};
ghost use Rattle.book.specs.Book.{lookup_of};
ghost use Rattle.count_stream.specs.Measure.{check_reading, lookup_reading};

use for_c::GxfValue;

// The number of packets of a stream.
#[unsafe(no_mangle)]
pub extern "C" fn gxf_check(s: &[u8]) -> GxfValue
    ensures { result ≡ check_reading (check_of s.now) }
{
    for_c::value(stream::check(s))
}

// The offset that a book has for a field of a track.
#[unsafe(no_mangle)]
pub extern "C" fn gxf_lookup(b: &[u8], track: u64, field: u64) -> GxfValue
    ensures { result ≡ lookup_reading (lookup_of b.now track field) }
{
    for_c::value(book::lookup(b, track, field))
}
