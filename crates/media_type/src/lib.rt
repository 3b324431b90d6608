// The media types of Table 5: which are known, in maps and in media packets alike, which are MPEG video, and the auxiliary item that a track of each may not have.
#![tactic(auto)]

ghost use Rattle.std.specs.Prelude.{◌≡◌};
ghost use Rattle.media_type.specs.MediaType.{known_type, mpeg_type, wrong_form};

// Whether a bare media type is one of the table's; all others are reserved. The upper ones are tested first, as one range of all three is slower in a look-up (docs/SPEED.md).
#[tactic(auto, unfolding(crate::specs::MediaType::known_type))]
pub fn is_known(media_type: u8) -> bool
    ensures { result ≡ known_type media_type }
{
    if 20 <= media_type {
        media_type <= 26
    } else {
        matches!(media_type, 3..=4 | 7..=18)
    }
}

// Whether a bare media type is MPEG video: 11, 12, 20, 22 or 23.
#[tactic(auto, unfolding(crate::specs::MediaType::mpeg_type))]
pub fn is_mpeg(media_type: u8) -> bool
    ensures { result ≡ mpeg_type media_type }
{
    matches!(media_type, 11..=12 | 20 | 22..=23)
}

// The tag of the auxiliary item that a listed track of a media type may not have: 4D for MPEG video, 4F for every other.
#[tactic(auto, unfolding(crate::specs::MediaType::wrong_form))]
pub fn wrong_form(media_type: u8) -> u8
    ensures { result ≡ wrong_form media_type }
{
    if is_mpeg(media_type) { 0x4D } else { 0x4F }
}
