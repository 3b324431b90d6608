// Runs in lent bytes: where the bytes of one kind, from a place on, end.
#![tactic(auto)]

ghost use Rattle.std.specs.Prelude.{◌≡◌, drop};
ghost use Rattle.mpeg_scan.specs.Scan.{run_end, other, alnum};

// A letter or a digit.
pub fn is_alnum(b: u8) -> bool
    ensures { result ≡ alnum b }
{
    b.is_ascii_alphanumeric()
}

// The bytes from a place on: cut off at once, as an iterator's `skip` would step over each byte before it.
fn rest(s: &[u8], at: usize) -> &[u8]
    ensures { result.now ≡ drop at s.now }
{
    if at < s.len() { &s[at..] } else { &s[..0] }
}

// The place of the first byte, from a place on, that is no letter and no digit, or the end.
pub fn alnum_end(s: &[u8], at: usize) -> usize
    ensures { result ≡ run_end alnum s.now at }
{
    for i in at..s.len() {
        if !is_alnum(s[i]) {
            return i;
        }
    }
    at.max(s.len())
}

// The place of the first byte, from a place on, that is `stop`, or the end.
pub fn until(s: &[u8], at: usize, stop: u8) -> usize
    ensures { result ≡ run_end (other stop) s.now at }
{
    at + rest(s, at).iter().take_while(|b| **b != stop).count()
}
