// A caller of builder, look-up and seek, whose contract says that look-up in a stream's book and seek in the stream agree.
#![tactic(auto)]

ghost use Rattle.std.specs.Prelude.{◌≡◌};
ghost use Rattle.book_builder.specs.BookBuilder.{build_answer, built_in};
ghost use Rattle.agreement.specs.Agreement.{agreement_of};

use plate::Refusal;

// Book and stream give one answer, or two.
#[derive(Clone, Copy, Debug, PartialEq, Eq)]
pub enum Agreement {
    One,
    Two,
}

// Writes the book of a stream into a buffer and asks both for a field of a track: one answer, wherever the book was built.
pub fn compare(out: &mut [u8], s: &[u8], track: u64, field: u64) -> Result<Agreement, Refusal>
    ensures { (result ≡ agreement_of (build_answer out.old s.now)) × (out.new ≡ built_in out.old s.now) }
{
    let n = book_builder::build(out, s)?;
    let found = book::lookup(&out[..16 * n], track, field);
    if found == stream::seek(s, track, field) {
        return Ok(Agreement::One);
    }
    Ok(Agreement::Two)
}
