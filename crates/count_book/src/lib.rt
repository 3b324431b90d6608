// The function for C by which bench/ counts the building of a seek book; apart from `count_stream`, as a library that has both compiles the check otherwise.
#![tactic(auto)]

ghost use Rattle.std.specs.Prelude.{◌≡◌};
ghost use Rattle.book_builder.specs.BookBuilder.{build_answer, built_in};
ghost use Rattle.count_book.specs.MeasureBook.{build_reading};

use for_c::GxfValue;

// The number of records of the book that was written.
#[unsafe(no_mangle)]
pub extern "C" fn gxf_build(out: &mut [u8], s: &[u8]) -> GxfValue
    ensures { (result ≡ build_reading (build_answer out.old s.now)) × (out.new ≡ built_in out.old s.now) }
{
    for_c::value(book_builder::build(out, s))
}
