// Track names, handed out as the part of the lent map that holds them, without the closing 00.
#![tactic(auto)]

ghost use Rattle.std.specs.Prelude.{◌≡◌, ◌≤◌, length};
ghost use Rattle.map_name.specs.Name.{opened_of, name_in, name_at, name_bytes, place_in, name_of_two_at, two_bytes, place_of_two};

use map_items::Part;
use plate::{Fault, Refusal};

// Where a name stands in one of two maps, and its length without the 00.
#[derive(Clone, Copy, Debug, PartialEq, Eq)]
pub enum OfTwo {
    Opening(Part),
    Closing(Part),
}

// The length of an accepted map packet at the start of lent bytes, or its refusal.
fn open_map(s: &[u8]) -> Result<usize, Refusal>
    ensures { result ≡ opened_of s.now }
{
    let w = packet::of_type(s, 0, packet::MAP)?;
    map::verdict_of(&s[..w.len])?;
    Ok(w.len)
}

// The name of a listed track in a map packet's bytes, without its closing 00.
fn name_in(p: &[u8], id: usize) -> Option<Part>
    ensures { result ≡ name_in p.now id }
{
    let track = map::id_of(p, id)?;
    let name = track.name?;
    Some(Part {
        at: name.at,
        len: name.len.saturating_sub(1),
    })
}

// Where the name of a listed track stands in a lent map, and its length without the 00, or the refusal: the map's own, else 16.
pub fn name_place(s: &[u8], id: usize) -> Result<Part, Refusal>
    ensures { result ≡ name_at s.now id }
{
    let n = open_map(s)?;
    name_in(&s[..n], id).ok_or(plate::refuse(Fault::NotThere, 0))
}

// The part of a lent map that holds the name of a listed track; empty where it is null or refused.
pub fn name(s: &[u8], id: usize) -> &[u8]
    ensures { (result.now ≡ name_bytes s.now (name_at s.now id))
        × (result.ref_ptr ≡ place_in s.entry.ref_ptr (name_at s.now id)) }
{
    match name_place(s, id) {
        Ok(name) => &s[name.at..name.at + name.len],
        Err(_) => &s[..0],
    }
}

// Of an opening and a closing map: the closing map's name if it lists the track with one, null included, else the opening map's.
pub fn name_place_of_two(opening: &[u8], closing: &[u8], id: usize) -> Result<OfTwo, Refusal>
    ensures { result ≡ name_of_two_at opening.now closing.now id }
{
    let k = open_map(opening)?;
    let n = open_map(closing)?;
    if let Some(name) = name_in(&closing[..n], id) {
        return Ok(OfTwo::Closing(name));
    }
    match name_in(&opening[..k], id) {
        Some(name) => Ok(OfTwo::Opening(name)),
        None => Err(plate::refuse(Fault::NotThere, 0)),
    }
}

// The part of one of two lent maps that holds the name; empty where it is null or refused.
pub fn name_of_two<'a>(opening: &'a [u8], closing: &'a [u8], id: usize) -> &'a [u8]
    ensures { (result.now ≡ two_bytes opening.now closing.now (name_of_two_at opening.now closing.now id))
        × (result.ref_ptr ≡ place_of_two opening.entry.ref_ptr closing.entry.ref_ptr (name_of_two_at opening.now closing.now id)) }
{
    match name_place_of_two(opening, closing, id) {
        Ok(OfTwo::Opening(name)) => &opening[name.at..name.at + name.len],
        Ok(OfTwo::Closing(name)) => &closing[name.at..name.at + name.len],
        Err(_) => &opening[..0],
    }
}
