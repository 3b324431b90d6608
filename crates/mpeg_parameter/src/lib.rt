// The parameters of MPEG auxiliary text: the table's rows, what a value is for a row, and every parameter by what the lines gave.
// What the lines gave a parameter, if one did, is its slot; the slots stand in the table's order.
#![tactic(auto)]

ghost use Rattle.std.specs.Prelude.{◌≡◌};
ghost use Rattle.mpeg_parameter.specs.Table.{row_at, row_for};
ghost use Rattle.mpeg_parameter.specs.Parameters.{amount_of, given, wanting, number_of, value_of_row, lacking, parameters_of};

// A row of the table: the identifier's bytes as a number, whether it must be given, whether it is a rate, and its first and last allowed value.
struct Row {
    name: u64,
    required: bool,
    rate: bool,
    least: u64,
    most: u64,
}

// A row by its fields, in their order: the table has a line for each.
macro_rules! row {
    ($name:expr, $required:expr, $rate:expr, $least:expr, $most:expr) => {
        Row {
            name: $name,
            required: $required,
            rate: $rate,
            least: $least,
            most: $most,
        }
    };
}

// Ver, Br, Ipg, Ppi, Bpiop, Pix, Cf, Cg, Sl, nl16, Vi, f1, cbpg, ar; a rate's values are in millionths. It is no constant: that would be put on the stack whole at each look at a row.
static TABLE: [Row; 14] = [
    row!(0x566572, true, false, 1, 1),
    row!(0x4272, true, true, 0, 9007199254740992),
    row!(0x497067, true, false, 0, 999999999),
    row!(0x507069, true, false, 0, 999999999),
    row!(0x4270696F70, true, false, 0, 999999999),
    row!(0x506978, true, false, 0, 1),
    row!(0x4366, true, false, 1, 2),
    row!(0x4367, true, false, 0, 1),
    row!(0x536C, true, false, 1, 31),
    row!(0x6E6C3136, true, false, 0, 999999999),
    row!(0x5669, true, false, 1, 1),
    row!(0x6631, true, false, 0, 1),
    row!(0x63627067, false, false, 0, 1),
    row!(0x6172, false, false, 0, 1),
];

// Past the table stands a row that is nobody's.
static NOBODY: Row = row!(0, false, false, 0, 0);

fn row_at(k: usize) -> &'static Row
    ensures { result.now ≡ row_at k }
{
    if k < TABLE.len() { &TABLE[k] } else { &NOBODY }
}

// A parameter's value: a whole number, or a rate.
#[derive(Clone, Copy, Debug, PartialEq)]
pub enum ParameterValue {
    Whole(u32),
    Rate(f64),
}

// Every parameter, by its identifier; an optional one that is not given is 0.
#[derive(Clone, Copy, Debug, PartialEq)]
pub struct Parameters {
    pub ver: ParameterValue,
    pub br: ParameterValue,
    pub ipg: ParameterValue,
    pub ppi: ParameterValue,
    pub bpiop: ParameterValue,
    pub pix: ParameterValue,
    pub cf: ParameterValue,
    pub cg: ParameterValue,
    pub sl: ParameterValue,
    pub nl16: ParameterValue,
    pub vi: ParameterValue,
    pub f1: ParameterValue,
    pub cbpg: ParameterValue,
    pub ar: ParameterValue,
}

// The row whose identifier is a number, if there is one.
pub fn row_for(name: u64) -> Option<usize>
    ensures { result ≡ row_for name }
{
    TABLE.iter().position(|row| row.name == name)
}

// A value's number, in the form that a row asks for.
pub fn amount(k: usize, v: &[u8]) -> Option<u64>
    ensures { result ≡ amount_of (row_at k) v.now }
{
    if row_at(k).rate {
        return mpeg_decimal::rate(v);
    }
    mpeg_decimal::whole(v)
}

impl Row {
    // Whether the parameter is given: by a line, and with an allowed value.
    fn is_given(&self, slot: Option<u64>) -> bool
        ensures { result ≡ given self.now slot }
    {
        match slot {
            Some(n) => self.least <= n && n <= self.most,
            None => false,
        }
    }

    // The parameter's number; 0 where it is not given.
    fn number_of(&self, slot: Option<u64>) -> u64
        ensures { result ≡ number_of self.now slot }
    {
        match slot {
            Some(n) if self.is_given(slot) => n,
            _ => 0,
        }
    }

    // Whether the parameter must be given and is not.
    fn is_wanting(&self, slot: Option<u64>) -> bool
        ensures { result ≡ wanting self.now slot }
    {
        self.required && !self.is_given(slot)
    }
}

// The value of a row's parameter: of a rate its millionths, exact, and one division.
pub fn value_of(k: usize, slot: Option<u64>) -> ParameterValue
    ensures { result ≡ value_of_row (row_at k) slot }
{
    let row = row_at(k);
    let n = row.number_of(slot);
    if row.rate {
        return ParameterValue::Rate(n as f64 / 1000000.0);
    }
    ParameterValue::Whole(n as u32)
}

// Whether any parameter must be given and is not.
pub fn is_lacking(slots: &[Option<u64>; 14]) -> bool
    ensures { result ≡ lacking slots.now 14 }
{
    for k in 0..14 {
        if row_at(k).is_wanting(slots[k]) {
            return true;
        }
    }
    false
}

// Every parameter, in the table's order.
pub fn parameters_of(slots: &[Option<u64>; 14]) -> Parameters
    ensures { result ≡ parameters_of slots.now }
{
    Parameters {
        ver: value_of(0, slots[0]),
        br: value_of(1, slots[1]),
        ipg: value_of(2, slots[2]),
        ppi: value_of(3, slots[3]),
        bpiop: value_of(4, slots[4]),
        pix: value_of(5, slots[5]),
        cf: value_of(6, slots[6]),
        cg: value_of(7, slots[7]),
        sl: value_of(8, slots[8]),
        nl16: value_of(9, slots[9]),
        vi: value_of(10, slots[10]),
        f1: value_of(11, slots[11]),
        cbpg: value_of(12, slots[12]),
        ar: value_of(13, slots[13]),
    }
}
