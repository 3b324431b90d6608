// The function for C by which bench/ counts the map reader, with all that it answers; apart from `count_stream`, as a library that has both compiles the check otherwise.
#![tactic(auto)]

ghost use Rattle.std.specs.Prelude.{◌≡◌};
ghost use Rattle.map.specs.Map.{map_at};
ghost use Rattle.count_map.specs.MeasureMap.{or_none, place_of, length_of, accepted_for_c, refused_for_c, map_for_c};

use map::MapSays;
use map_items::Part;
use plate::Refusal;

// What stands for a number that is absent; the numbers of a map are under 2^32.
const NONE: u64 = 0xFFFF_FFFF_FFFF_FFFF;

// Number 0, place 0, lacking 0, the count of listed tracks and the material; or a number of the plate, its place, the bytes lacking, and zeros.
#[repr(C)]
#[derive(Clone, Copy)]
pub struct GxfMap {
    pub number: u64,
    pub place: u64,
    pub lacking: u64,
    pub count: u64,
    // Where the name's bytes stand and how many are stored; 0 and 0 where there is none.
    pub name: u64,
    pub name_length: u64,
    pub first: u64,
    pub last: u64,
    pub mark_in: u64,
    pub mark_out: u64,
    pub size: u64,
}

fn or_none(v: Option<u32>) -> u64
    ensures { result ≡ or_none v }
{
    match v {
        Some(n) => n as u64,
        None => NONE,
    }
}

fn place_of(p: Option<Part>) -> u64
    ensures { result ≡ place_of p }
{
    match p {
        Some(part) => part.at as u64,
        None => 0,
    }
}

fn length_of(p: Option<Part>) -> u64
    ensures { result ≡ length_of p }
{
    match p {
        Some(part) => part.len as u64,
        None => 0,
    }
}

// Of an accepted map.
fn accepted(m: MapSays) -> GxfMap
    ensures { result ≡ accepted_for_c m }
{
    let material = m.material;
    GxfMap {
        number: 0,
        place: 0,
        lacking: 0,
        count: m.count as u64,
        name: place_of(material.name),
        name_length: length_of(material.name),
        first: or_none(material.first),
        last: or_none(material.last),
        mark_in: or_none(material.mark_in),
        mark_out: or_none(material.mark_out),
        size: or_none(material.size),
    }
}

// Of a refused one.
fn refused(r: Refusal) -> GxfMap
    ensures { result ≡ refused_for_c r }
{
    GxfMap {
        number: r.fault.number() as u64,
        place: r.place as u64,
        lacking: r.lacking as u64,
        count: 0,
        name: 0,
        name_length: 0,
        first: 0,
        last: 0,
        mark_in: 0,
        mark_out: 0,
        size: 0,
    }
}

// What the map at the start of the bytes says.
#[unsafe(no_mangle)]
pub extern "C" fn gxf_map(s: &[u8]) -> GxfMap
    ensures { result ≡ map_for_c (map_at s.now 0) }
{
    match map::read(s, 0) {
        Ok(m) => accepted(m),
        Err(r) => refused(r),
    }
}
