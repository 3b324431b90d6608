// The aspect of a track, 4x3 or 16x9, by its type and by the bytes of its 4D and 4F. No picture is opened.
#![tactic(auto)]

ghost use Rattle.std.specs.Prelude.{◌≡◌, ◌<◌, eqb};
ghost use Rattle.map_aspect.specs.Aspect.{aspect_for, validity, dv_aspect, text_aspect, aspect_of};

use mpeg_parameter::ParameterValue;

#[derive(Clone, Copy, Debug, PartialEq, Eq)]
pub enum Aspect {
    FourByThree,
    SixteenByNine,
    Unknown,
}

// The aspect that a number of the paper is: 0 or 1.
fn of_number(n: u32) -> Aspect
    ensures { result ≡ aspect_for n }
{
    match n {
        0 => Aspect::FourByThree,
        1 => Aspect::SixteenByNine,
        _ => Aspect::Unknown,
    }
}

// Whether the validity of a 4D, its bits 30 and 31, reads as the number 1: they are the two highest bits of byte 3.
fn is_valid(v: &[u8]) -> bool
    ensures { result ≡ eqb (validity v.now) 1 }
{
    4 <= v.len() && v[3] / 64 == 1
}

// Of a DV-based type: by a bit of byte 0 of a valid 4D.
fn of_dv(v: &[u8], bit: u32) -> Aspect
    requires { bit < 8 }
    ensures { result ≡ dv_aspect bit v.now }
{
    if is_valid(v) {
        return of_number(((v[0] >> bit) % 2) as u32);
    }
    Aspect::Unknown
}

// Of MPEG video: `ar` of a 4F that reads as auxiliary text.
fn of_text(v: &[u8]) -> Aspect
    ensures { result ≡ text_aspect v.now }
{
    match mpeg::ratio(v) {
        Ok(ParameterValue::Whole(n)) => of_number(n),
        Ok(ParameterValue::Rate(_)) => Aspect::Unknown,
        Err(_) => Aspect::Unknown,
    }
}

// Of a track of a bare type that shows these bytes under 4D and these under 4F; an item that it does not show has none.
pub fn of_track(media_type: u8, aux: &[u8], text: &[u8]) -> Aspect
    ensures { result ≡ aspect_of media_type aux.now text.now }
{
    if media_type::is_mpeg(media_type) {
        return of_text(text);
    }
    match media_type {
        // Bit 4 for 25 Mb/s, bit 0 for 50 Mb/s.
        13..=14 => of_dv(aux, 4),
        15..=16 => of_dv(aux, 0),
        _ => Aspect::Unknown,
    }
}
