// Field numbers: which fields a packet carries by its number, and the mark beside a media type, of tracks with fields per frame 1 and of packets that carry two fields.
#![tactic(auto)]

ghost use Rattle.std.specs.Prelude.{◌≡◌, ◌/◌, ◌<◌};
ghost use Rattle.field.specs.Field.{type_with, has_mark, type_alone, is_even, carries_two, is_field};

// Added to a media type: of a track with fields per frame 1, and of a packet that carries two fields.
pub const MARK: u8 = 64;

// A media type with the mark, or without.
#[tactic(auto, unfolding(crate::specs::Field::type_with))]
pub fn type_with(marked: bool, media_type: u8) -> u8
    requires { media_type < 128 }
    ensures { result ≡ type_with marked media_type }
{
    if marked {
        media_type + MARK
    } else {
        media_type
    }
}

#[tactic(auto, unfolding(crate::specs::Field::has_mark))]
pub fn has_mark(type_byte: u8) -> bool
    ensures { result ≡ has_mark type_byte }
{
    MARK <= type_byte
}

// The type of a marked type under 128.
#[tactic(auto, unfolding(crate::specs::Field::type_alone))]
pub fn type_alone(type_byte: u8) -> u8
    ensures { result ≡ type_alone type_byte }
{
    type_byte % MARK
}

#[tactic(auto, unfolding(crate::specs::Field::is_even))]
pub fn is_even(number: u64) -> bool
    ensures { result ≡ is_even number }
{
    number % 2 == 0
}

// Whether a packet of a number carries two fields, by the marked type of its track.
#[tactic(auto, unfolding(crate::specs::Field::carries_two))]
pub fn carries_two(type_byte: u8, number: u64) -> bool
    ensures { result ≡ carries_two type_byte number }
{
    has_mark(type_byte) && is_even(number)
}

// Whether a packet of a number carries a field that has the number's half, by the marked type of its track: with the mark the even one of two such numbers carries both, and the odd one itself; without it each carries itself.
#[tactic(auto, using(crate::proofs::Laws::same_half))]
pub fn by_half(type_byte: u8, number: u64, field: u64) -> bool
    requires { number / 2 ≡ field / 2 }
    ensures { result ≡ is_field (carries_two type_byte number) number field }
{
    if has_mark(type_byte) {
        number <= field
    } else {
        number == field
    }
}
