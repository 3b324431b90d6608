// The text rule: one byte at least, 00 last and nowhere else, none over 7F.
#![tactic(auto)]

ghost use Rattle.std.specs.Prelude.{◌≡◌};
ghost use Rattle.text.specs.Text.{text_ok};

pub fn is_text(v: &[u8]) -> bool
    ensures { result ≡ text_ok v.now }
{
    let Some((last, front)) = v.split_last() else {
        return false;
    };
    *last == 0 && front.iter().all(|b| matches!(*b, 0x01..=0x7F))
}
