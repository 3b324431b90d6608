// Numbers written in decimal digits: a whole number, and a rate in millionths.
#![tactic(auto)]

ghost use Rattle.std.specs.Prelude.{◌≡◌, ◌≤◌, ◌-◌, ◌^◌};
ghost use Rattle.mpeg_decimal.specs.Decimal.{numeral_of, fraction_of, whole_of, rate_of};

// What one digit and the next up to `most` are as a number.
fn numeral(v: &[u8], most: usize) -> Option<u64>
    requires { most ≤ 10 }
    ensures { result ≡ numeral_of most v.now }
{
    if v.is_empty() || most < v.len() {
        return None;
    }
    let mut n: u64 = 0;
    for b in v {
        if !b.is_ascii_digit() {
            return None;
        }
        n = n * 10 + (*b - b'0') as u64;
    }
    Some(n)
}

const WORTHS: [u64; 7] = [1000000, 100000, 10000, 1000, 100, 10, 1];

// What the last of so many decimals is worth in millionths.
fn worth(places: usize) -> u64
    requires { places ≤ 6 }
    ensures { result ≡ 10 ^ (6 - places) }
{
    WORTHS[places]
}

// What stands from the point on, in millionths: nothing, or the point and its decimals.
fn fraction(v: &[u8]) -> Option<u64>
    ensures { result ≡ fraction_of v.now }
{
    let Some((_, decimals)) = v.split_first() else {
        return Some(0);
    };
    Some(numeral(decimals, 6)? * worth(decimals.len()))
}

// A whole number: 1 to 9 digits.
pub fn whole(v: &[u8]) -> Option<u64>
    ensures { result ≡ whole_of v.now }
{
    numeral(v, 9)
}

// A rate in millionths, up to 2^53.
pub fn rate(v: &[u8]) -> Option<u64>
    ensures { result ≡ rate_of v.now }
{
    let (whole, decimals) = v.split_at(mpeg_scan::until(v, 0, b'.'));
    let total = numeral(whole, 10)? * 1000000 + fraction(decimals)?;
    (total <= 1 << 53).then_some(total)
}
