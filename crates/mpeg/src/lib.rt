// MPEG auxiliary text: lines of an identifier and a value, read into every parameter of Table 7.
#![tactic(auto)]

ghost use Rattle.std.specs.Prelude.{◌≡◌, ◌<◌, ◌≤◌, length, get_or, eqb};
ghost use Rattle.mpeg_parameter.specs.Table.{row_of};
ghost use Rattle.mpeg.specs.Lines.{label_at, value_then, lines_at};
ghost use Rattle.mpeg.specs.Read.{taken, judge_lines, read_of, ratio_of};
ghost use Rattle.mpeg.specs.Inside.{Known, Agrees, Skipped, completed};

use mpeg_parameter::{ParameterValue, Parameters};
use plate::{Fault, Refusal};

// What the lines gave each row's parameter, if one did.
type Slots = [Option<u64>; 14];

// An identifier that stands at a place: its row, if it is known, and where its value begins.
#[derive(Clone, Copy)]
struct Label {
    row: Option<usize>,
    value: usize,
}

// The row of an identifier; the table's longest has five bytes.
fn row_of(v: &[u8]) -> Option<usize>
    requires { 0 < get_or v.now 0 0 }
    ensures { result ≡ row_of v.now }
{
    if 5 < v.len() {
        return None;
    }
    mpeg_parameter::row_for(number::be_at(v, 0, v.len()) as u64)
}

// A line's value goes into its row's slot; 26 comes before 10, and an unknown identifier is passed over.
fn take_line(slots: &mut Slots, line: usize, row: Option<usize>, v: &[u8]) -> Result<(), Refusal>
    requires { Known row }
    ensures { Agrees (taken slots.old line row v.now) result slots.new }
{
    let Some(k) = row else {
        return Ok(());
    };
    let Some(n) = mpeg_parameter::amount(k, v) else {
        return Err(plate::refuse(Fault::AuxiliaryLine, line));
    };
    if slots[k].is_some() {
        return Err(plate::refuse(Fault::Twice, line));
    }
    slots[k] = Some(n);
    Ok(())
}

fn is_space(s: &[u8], at: usize) -> bool
    ensures { result ≡ eqb (get_or s.now at 0) 0x20 }
{
    at < s.len() && s[at] == b' '
}

// The identifier at a place, with the space after it.
fn label_at(s: &[u8], at: usize) -> Option<Label>
    requires { at < length s.now }
    ensures { result ≡ label_at s.now at }
{
    let e = mpeg_scan::alnum_end(s, at);
    if at < e {
        if is_space(s, e) {
            let row = row_of(&s[at..e]);
            return Some(Label { row, value: e + 1 });
        }
    }
    None
}

// Past the lines, from a place on, whose identifiers are unknown. So the two functions below take turns once a parameter and not once a line:
// a parameter's second turn is refused, and a text of any length needs no deep stack.
fn skip(s: &[u8], from: usize) -> usize
    requires { from ≤ length s.now }
    ensures { Skipped s.now from result }
{
    let mut at = from;
    while at < s.len() {
        let Some(label) = label_at(s, at) else {
            return at;
        };
        if label.row.is_some() {
            return at;
        }
        let e = mpeg_scan::until(s, label.value, b'\n');
        if s.len() <= e {
            return at;
        }
        at = e + 1;
    }
    at
}

// The lines from an identifier on.
#[cycle(ident_value)]
fn ident(s: &[u8], from: usize, slots: &mut Slots) -> Result<(), Refusal>
    requires { from ≤ length s.now }
    ensures { Agrees (judge_lines slots.old (lines_at s.now from)) result slots.new }
{
    let at = skip(s, from);
    if s.len() <= at {
        return Ok(());
    }
    match label_at(s, at) {
        Some(label) => value(s, at, label, slots),
        None => Err(plate::refuse(Fault::AuxiliaryLine, at)),
    }
}

// The lines from the value after a label on, in the line that begins at `line`.
#[cycle(ident_value)]
fn value(s: &[u8], line: usize, label: Label, slots: &mut Slots) -> Result<(), Refusal>
    requires within { label.value ≤ length s.now }
    requires known { Known label.row }
    ensures { Agrees (judge_lines slots.old (value_then s.now line label.row label.value (lines_at s.now))) result slots.new }
{
    let e = mpeg_scan::until(s, label.value, b'\n');
    if s.len() <= e {
        return Err(plate::refuse(Fault::AuxiliaryLine, line));
    }
    take_line(slots, line, label.row, &s[label.value..e])?;
    ident(s, e + 1, slots)
}

// The lines one after another, in one loop. `ident` and `value` judge them in turns, as the paper has it; this takes less stack, for who wants one parameter.
fn in_order(s: &[u8], slots: &mut Slots) -> Result<(), Refusal>
    ensures { Agrees (judge_lines slots.old (lines_at s.now 0)) result slots.new }
{
    let mut at: usize = 0;
    while at < s.len() {
        let Some(label) = label_at(s, at) else {
            return Err(plate::refuse(Fault::AuxiliaryLine, at));
        };
        let e = mpeg_scan::until(s, label.value, b'\n');
        if s.len() <= e {
            return Err(plate::refuse(Fault::AuxiliaryLine, at));
        }
        take_line(slots, at, label.row, &s[label.value..e])?;
        at = e + 1;
    }
    Ok(())
}

// Whether every parameter is given that must be: else 27.
fn completed(slots: &Slots) -> Result<(), Refusal>
    ensures { result ≡ completed slots.now }
{
    if mpeg_parameter::is_lacking(slots) {
        return Err(plate::refuse(Fault::NotGiven, 0));
    }
    Ok(())
}

// The parameters of a text, its closing 00 included.
pub fn read(v: &[u8]) -> Result<Parameters, Refusal>
    ensures { result ≡ read_of v.now }
{
    if !text::is_text(v) {
        return Err(plate::refuse(Fault::Text, 0));
    }
    let end = v.len() - 1;
    let mut slots = [None; 14];
    ident(&v[..end], 0, &mut slots)?;
    completed(&slots)?;
    Ok(mpeg_parameter::parameters_of(&slots))
}

// The aspect ratio, `ar`, of a text that `read` takes; of any other the same refusal.
pub fn ratio(v: &[u8]) -> Result<ParameterValue, Refusal>
    ensures { result ≡ ratio_of (read_of v.now) }
{
    if !text::is_text(v) {
        return Err(plate::refuse(Fault::Text, 0));
    }
    let end = v.len() - 1;
    let mut slots = [None; 14];
    in_order(&v[..end], &mut slots)?;
    completed(&slots)?;
    Ok(mpeg_parameter::value_of(13, slots[13]))
}
