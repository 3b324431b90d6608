// The map reader: the verdict on a map packet, its material answer, its listed tracks by number, and their IDs with types.
// `read` and `track` take lent bytes and a position. The functions `.._of` take the bytes of one packet whose header was read, up to its length;
// what those that give no verdict say is 01's answer where `verdict_of` accepts, and of other bytes what the lengths alone give.
#![tactic(auto)]

ghost use Rattle.std.specs.Prelude.{◌≡◌, ◌+◌, ◌≤◌, length};
ghost use Rattle.map_tracks.specs.Tracks.{kth_of, id_of};
ghost use Rattle.map.specs.Map.{after_material, layout_of, material_in, tracks_in, tracks_at, both_verdict, sections_verdict, map_verdict, material_says, listed_in, types_in, answer_of, track_in, map_at, track_at};

use map_answer::{Material, Track};
use map_items::Section;
use map_tracks::Types;
use plate::{Fault, Refusal};

// Where a map's two sections end, by their length words alone; the material section begins at 20.
#[derive(Clone, Copy, Debug, PartialEq, Eq)]
pub enum Layout {
    // The material section ends at the first, and the track section, two bytes after that, begins; it ends at the second.
    Both(usize, usize),
    // The track section is missing or passes the packet.
    One(usize),
    // The material section is missing or passes the packet.
    Neither,
}

// What an accepted map says: the number of its listed tracks, and the material answer.
#[derive(Clone, Copy, Debug, PartialEq, Eq)]
pub struct MapSays {
    pub count: usize,
    pub material: Material,
}

fn after_material(p: &[u8], a: usize) -> Layout
    requires { a ≤ length p.now }
    ensures { result ≡ after_material p.now a }
{
    let left = p.len() - a;
    if left < 2 {
        return Layout::One(a);
    }
    let n = number::be_at(p, a, 2);
    if left - 2 < n {
        return Layout::One(a);
    }
    Layout::Both(a, a + 2 + n)
}

// The layout of a map packet's bytes.
pub fn layout_of(p: &[u8]) -> Layout
    ensures { result ≡ layout_of p.now }
{
    if p.len() < 20 {
        return Layout::Neither;
    }
    let n = number::be_at(p, 18, 2);
    if p.len() - 20 < n {
        return Layout::Neither;
    }
    after_material(p, 20 + n)
}

// The bytes of the material section; none where it is missing.
fn material_part(p: &[u8]) -> &[u8]
    ensures { result.now ≡ material_in p.now (layout_of p.now) }
{
    match layout_of(p) {
        Layout::Both(a, _) => &p[20..a],
        Layout::One(a) => &p[20..a],
        Layout::Neither => &p[..0],
    }
}

// The bytes of the track section; none where it is missing.
fn track_part(p: &[u8]) -> &[u8]
    ensures { result.now ≡ tracks_in p.now (layout_of p.now) }
{
    match layout_of(p) {
        Layout::Both(a, e) => &p[a + 2..e],
        _ => &p[..0],
    }
}

// The place where the track section begins; 0 where it is missing.
fn first_track(p: &[u8]) -> usize
    ensures { result ≡ tracks_at (layout_of p.now) }
{
    match layout_of(p) {
        Layout::Both(a, _) => a + 2,
        _ => 0,
    }
}

// The verdict on both sections, where they lie in the packet.
fn judge_both(p: &[u8], a: usize, e: usize) -> Result<(), Refusal>
    requires { (20 ≤ a) × (a + 2 ≤ e) × (e ≤ length p.now) }
    ensures { result ≡ both_verdict p.now a e }
{
    map_items::judge(Section::Material, &p[20..a], 20)?;
    let b = a + 2;
    map_tracks::judge(&p[b..e], b)
}

// The verdict where only the material section lies in the packet.
fn judge_one(p: &[u8], a: usize) -> Result<(), Refusal>
    requires { (20 ≤ a) × (a ≤ length p.now) }
    ensures { result ≡ sections_verdict p.now (Layout.One a) }
{
    map_items::judge(Section::Material, &p[20..a], 20)?;
    map_items::refused(Fault::Overhang, a)
}

// The verdict on the bytes of a map packet: its first fault in walk order.
// It is called, so the loop that reads media packets stays small.
#[inline(never)]
pub fn verdict_of(p: &[u8]) -> Result<(), Refusal>
    ensures { result ≡ map_verdict p.now }
{
    if p.len() < 18 {
        return map_items::refused(Fault::Overhang, 16);
    }
    if p[16] != 0xE0 {
        return map_items::refused(Fault::MapVersion, 16);
    }
    match layout_of(p) {
        Layout::Both(a, e) => judge_both(p, a, e),
        Layout::One(a) => judge_one(p, a),
        Layout::Neither => map_items::refused(Fault::Overhang, 18),
    }
}

// The material answer of a map packet's bytes.
pub fn material_of(p: &[u8]) -> Material
    ensures { result ≡ material_says p.now }
{
    map_answer::material_says(material_part(p), 20)
}

// The number of tracks that a map packet's bytes list.
pub fn count_of(p: &[u8]) -> usize
    ensures { result ≡ length (listed_in p.now) }
{
    map_tracks::count(track_part(p))
}

// The record of the k-th listed track, from 0.
pub fn kth_of(p: &[u8], k: usize) -> Option<Track>
    ensures { result ≡ kth_of k (listed_in p.now) }
{
    map_tracks::kth_record(track_part(p), first_track(p), k)
}

// The record of the listed track of an ID.
pub fn id_of(p: &[u8], id: usize) -> Option<Track>
    ensures { result ≡ id_of id (listed_in p.now) }
{
    map_tracks::record_of_id(track_part(p), first_track(p), id)
}

// The listed IDs with their marked types.
// It is called, so the loop that reads media packets stays small.
#[inline(never)]
pub fn types_of(p: &[u8]) -> Types
    ensures { result.media_types ≡ types_in p.now }
{
    map_tracks::types_by_id(track_part(p))
}

// The answer of a map packet's bytes, or its first fault.
pub fn answer_of(p: &[u8]) -> Result<MapSays, Refusal>
    ensures { result ≡ answer_of p.now }
{
    verdict_of(p)?;
    Ok(MapSays {
        count: count_of(p),
        material: material_of(p),
    })
}

// The record of the k-th listed track of a map packet's bytes, or the first fault; 16 where fewer are listed.
pub fn track_of(p: &[u8], k: usize) -> Result<Track, Refusal>
    ensures { result ≡ track_in p.now k }
{
    verdict_of(p)?;
    kth_of(p, k).ok_or(plate::refuse(Fault::NotThere, 0))
}

// The map packet at a position of lent bytes: refusals 1 to 6, then its own. Places in it count from its first byte.
pub fn read(s: &[u8], at: usize) -> Result<MapSays, Refusal>
    ensures { result ≡ map_at s.now at }
{
    let w = packet::of_type(s, at, packet::MAP)?;
    answer_of(&s[at..at + w.len])
}

// The k-th listed track of the map packet at a position of lent bytes.
pub fn track(s: &[u8], at: usize, k: usize) -> Result<Track, Refusal>
    ensures { result ≡ track_at s.now at k }
{
    let w = packet::of_type(s, at, packet::MAP)?;
    track_of(&s[at..at + w.len], k)
}
