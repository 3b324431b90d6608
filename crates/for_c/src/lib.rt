// What C is given where an answer is one number. It serves the crates with functions for C, which say what the number is.
#![tactic(auto)]

ghost use Rattle.std.specs.Prelude.{◌≡◌};
ghost use Rattle.for_c.specs.ForC.{answered_for_c, refused_for_c, value_for_c};

use plate::Refusal;

// Number 0, place 0, lacking 0 and the value; or a number of the plate, its place, the bytes lacking, and 0.
#[repr(C)]
#[derive(Clone, Copy, PartialEq, Eq, Debug)]
pub struct GxfValue {
    pub number: u64,
    pub place: u64,
    pub lacking: u64,
    pub value: u64,
}

// Of a call that was answered.
pub fn answered(value: u64) -> GxfValue
    ensures { result ≡ answered_for_c value }
{
    GxfValue {
        number: 0,
        place: 0,
        lacking: 0,
        value,
    }
}

// Of a call that was refused.
pub fn refused(r: Refusal) -> GxfValue
    ensures { result ≡ refused_for_c r }
{
    GxfValue {
        number: r.fault.number() as u64,
        place: r.place as u64,
        lacking: r.lacking as u64,
        value: 0,
    }
}

// Of a call that counts or gives an offset, or was refused.
pub fn value(answer: Result<usize, Refusal>) -> GxfValue
    ensures { result ≡ value_for_c answer }
{
    match answer {
        Ok(v) => answered(v as u64),
        Err(r) => refused(r),
    }
}
