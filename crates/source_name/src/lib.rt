// The source device's name of a segment of a UMF, handed out as the part of the lent bytes that holds it, without the closing 00.
#![tactic(auto)]

ghost use Rattle.std.specs.Prelude.{◌≡◌};
ghost use Rattle.source_name.specs.SourceName.{name_at, name_bytes, place_in};

use map_items::Part;
use plate::Refusal;

// Where the name of a segment of the UMF packet at a position stands in its packet, and its length without the 00, by the segment's number from 0: refusals 1 to 6, 30, then 16.
pub fn name_place(s: &[u8], at: usize, n: usize) -> Result<Option<Part>, Refusal>
    ensures { result ≡ name_at s.now at n }
{
    Ok(segment::segment_at(s, at, n)?.name)
}

// The part of the lent bytes that holds it; empty where it is absent or refused.
pub fn name(s: &[u8], at: usize, n: usize) -> &[u8]
    ensures { (result.now ≡ name_bytes s.now at (name_at s.now at n))
        × (result.ref_ptr ≡ place_in s.entry.ref_ptr at (name_at s.now at n)) }
{
    match name_place(s, at, n) {
        Ok(Some(part)) => {
            let from = at + part.at;
            let to = from + part.len;
            &s[from..to]
        }
        Ok(None) => &s[..0],
        Err(_) => &s[..0],
    }
}
