// What a UMF says, by value: its preamble, its payload and material descriptions, a track, a user record.
#![tactic(auto)]

ghost use Rattle.std.specs.Prelude.{◌≡◌, false, ◌+◌, ◌*◌, ◌≤◌, ◌<◌, ◌^◌, ◌/◌, ◌%◌, length, eqb};
ghost use Rattle.plate.specs.Choice.{pick, within};
ghost use Rattle.number.specs.Number.{le};
ghost use Rattle.packet.specs.Packet.{packet_at};
ghost use Rattle.map_items.specs.Judge.{has};
ghost use Rattle.umf.specs.Umf.{umf_verdict};
ghost use Rattle.umf_answer.specs.Says.{shown_if, preamble_of, payload_says, time_of, material_says, says_of, umf_at, letters, is_track, track_shown, track_of, owner_of, user_of, track_at, user_at};

use map_items::Part;
use plate::Refusal;
use umf::Described;

// The preamble: its flag, if it is one, and the payload data length.
#[derive(Clone, Copy, Debug, PartialEq, Eq)]
pub struct Preamble {
    pub flag: Option<u32>,
    pub len: u32,
}

// The payload description: the length of all, the version, the numbers of tracks and segments, and where the sections stand.
#[derive(Clone, Copy, Debug, PartialEq, Eq)]
pub struct Payload {
    pub total: u32,
    pub version: Option<u32>,
    pub tracks: u32,
    pub tracks_at: u32,
    pub tracks_size: u32,
    pub segments: u32,
    pub segments_at: u32,
    pub segments_size: u32,
    pub users_at: u32,
    pub users_size: u32,
}

// The material description: attributes, lengths and marks in fields, time codes at the marks, two times, and the numbers of tracks.
#[derive(Clone, Copy, Debug, PartialEq, Eq)]
pub struct Material {
    pub attributes: u32,
    pub longest: u32,
    pub shortest: u32,
    pub mark_in: u32,
    pub mark_out: u32,
    pub time_in: u32,
    pub time_out: u32,
    pub modified: u64,
    pub created: u64,
    pub audio: u32,
    pub time_codes: u32,
    pub mpeg: u32,
}

// A whole UMF, flag 3: the payload data length, both descriptions, and the number of user records.
#[derive(Clone, Copy, Debug, PartialEq, Eq)]
pub struct Umf {
    pub len: u32,
    pub payload: Payload,
    pub material: Material,
    pub users: usize,
}

// What a UMF packet says.
#[derive(Clone, Copy, Debug, PartialEq, Eq)]
pub enum UmfSays {
    Opened(Umf),
    // A part of a UMF split over packets, or of a reserved flag.
    Closed(Preamble),
}

// A track: its type's letter and its number in one number, and how many segments it has.
#[derive(Clone, Copy, Debug, PartialEq, Eq)]
pub struct TrackSays {
    pub track: Option<u32>,
    pub segments: u32,
}

// The track that a user record is of.
#[derive(Clone, Copy, Debug, PartialEq, Eq)]
pub enum Owner {
    Track(u32),
    NoTrack,
    Absent,
}

// A user record: its position, track, media sequence number and key, and where its data stands.
#[derive(Clone, Copy, Debug, PartialEq, Eq)]
pub struct UserSays {
    pub position: u32,
    pub owner: Owner,
    pub sequence: u32,
    pub key: u32,
    pub place: Part,
}

// A number of four bytes.
pub fn word(d: &[u8], at: usize) -> u32
    requires { at + 4 ≤ length d.now }
    ensures { result ≡ le d.now at 4 }
{
    number::le4(d, at) as u32
}

// A number of two bytes.
pub fn half(d: &[u8], at: usize) -> u32
    requires { at + 2 ≤ length d.now }
    ensures { result ≡ le d.now at 2 }
{
    number::le_at(d, at, 2) as u32
}

// A number where it is in its list, else absent.
pub fn shown_if(listed: bool, n: u32) -> Option<u32>
    ensures { result ≡ shown_if listed n }
{
    listed.then_some(n)
}

fn preamble_says(p: &[u8]) -> Preamble
    requires { 21 ≤ length p.now }
    ensures { result ≡ preamble_of p.now }
{
    let flag = p[16];
    Preamble {
        flag: shown_if(flag <= 3, flag as u32),
        len: number::be4(p, 17) as u32,
    }
}

fn payload_says(y: &[u8]) -> Payload
    requires { 104 ≤ length y.now }
    ensures { result ≡ payload_says y.now }
{
    let version = word(y, 0x04);
    Payload {
        total: word(y, 0x00),
        version: shown_if(version == 3, version),
        tracks: word(y, 0x08),
        tracks_at: word(y, 0x0C),
        tracks_size: word(y, 0x10),
        segments: word(y, 0x14),
        segments_at: word(y, 0x18),
        segments_size: word(y, 0x1C),
        users_at: word(y, 0x20),
        users_size: word(y, 0x24),
    }
}

// A time of 64 bits, its more significant word first.
fn time(y: &[u8], at: usize) -> u64
    requires { at + 8 ≤ length y.now }
    ensures { result ≡ time_of y.now at }
{
    let high = word(y, at);
    let low = word(y, at + 4);
    high as u64 * 0x100000000 + low as u64
}

fn material_says(y: &[u8]) -> Material
    requires { 104 ≤ length y.now }
    ensures { result ≡ material_says y.now }
{
    Material {
        attributes: word(y, 48),
        longest: word(y, 52),
        shortest: word(y, 56),
        mark_in: word(y, 60),
        mark_out: word(y, 64),
        time_in: word(y, 68),
        time_out: word(y, 72),
        modified: time(y, 76),
        created: time(y, 84),
        audio: half(y, 96),
        time_codes: half(y, 98),
        mpeg: half(y, 102),
    }
}

// What an accepted packet says.
fn says(p: &[u8]) -> UmfSays
    requires { umf_verdict p.now ≡ (Ok tt) }
    ensures { result ≡ says_of p.now }
{
    if p[16] != 3 {
        return UmfSays::Closed(preamble_says(p));
    }
    let n = number::be4(p, 17);
    let end = 21 + n;
    let y = &p[21..end];
    UmfSays::Opened(Umf {
        len: n as u32,
        payload: payload_says(y),
        material: material_says(y),
        users: umf::number_of(y, Described::Users),
    })
}

// The UMF packet at a position: refusals 1 to 6, then 30.
pub fn read(s: &[u8], at: usize) -> Result<UmfSays, Refusal>
    ensures { result ≡ umf_at s.now at }
{
    let w = packet::of_type(s, at, packet::UMF)?;
    let end = at + w.len;
    let p = &s[at..end];
    umf::verdict_of(p)?;
    Ok(says(p))
}

// Whether a byte is the letter of a type of tracks: A D E F H I L M N T V.
fn is_letter(b: u32) -> bool
    ensures { result ≡ has b letters }
{
    is_in(
        &[
            0x41, 0x44, 0x45, 0x46, 0x48, 0x49, 0x4C, 0x4D, 0x4E, 0x54, 0x56,
        ],
        b,
    )
}

// Whether a number is in a list.
pub fn is_in(list: &[u32], n: u32) -> bool
    ensures { result ≡ has n list.now }
{
    list.contains(&n)
}

// Whether a number of 16 bits is a track: a letter and 0 to 9, of audio tracks A to V too.
pub fn is_track(n: u32) -> bool
    ensures { result ≡ is_track n }
{
    let letter = n / 256;
    match n % 256 {
        0x30..=0x39 => is_letter(letter),
        0x41..=0x56 => letter == 0x41,
        _ => false,
    }
}

fn track_says(d: &[u8]) -> TrackSays
    requires { 4 ≤ length d.now }
    ensures { result ≡ track_of d.now }
{
    let track = half(d, 0);
    TrackSays {
        track: shown_if(is_track(track), track),
        segments: half(d, 2),
    }
}

fn owner_of(n: u32) -> Owner
    ensures { result ≡ owner_of n }
{
    match n {
        0 => Owner::NoTrack,
        _ if is_track(n) => Owner::Track(n),
        _ => Owner::Absent,
    }
}

// What a user record's bytes say, which begin at place q of the packet.
fn user_says(d: &[u8], q: usize) -> UserSays
    requires { (18 ≤ length d.now) × (q + length d.now < 2 ^ 64) }
    ensures { result ≡ user_of q d.now }
{
    UserSays {
        position: word(d, 4),
        owner: owner_of(half(d, 8)),
        sequence: half(d, 10),
        key: word(d, 12),
        place: Part {
            at: q + 16,
            len: d.len() - 18,
        },
    }
}

// A track of the UMF packet at a position, by its number from 0: refusals 1 to 6, 30, then 16.
pub fn track(s: &[u8], at: usize, n: usize) -> Result<TrackSays, Refusal>
    ensures { result ≡ track_at s.now at n }
{
    let part = umf::place(s, at, Described::Tracks, n)?;
    let from = at + part.at;
    let to = from + part.len;
    Ok(track_says(&s[from..to]))
}

// A user record of the UMF packet at a position, by its number from 0: refusals 1 to 6, 30, then 16. The place of its data counts from the packet's first byte.
pub fn user(s: &[u8], at: usize, n: usize) -> Result<UserSays, Refusal>
    ensures { result ≡ user_at s.now at n }
{
    let part = umf::place(s, at, Described::Users, n)?;
    let from = at + part.at;
    let to = from + part.len;
    Ok(user_says(&s[from..to], part.at))
}
