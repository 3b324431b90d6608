// The seek book: its records, and the lookup of a track's field in a lent book.
#![tactic(auto)]

ghost use Rattle.std.specs.Prelude.{◌≡◌, ◌+◌, ◌*◌, ◌%◌, ◌<◌, ◌≤◌, ◌^◌, length, eqb};
ghost use Rattle.plate.specs.Choice.{pick};
ghost use Rattle.plate.specs.Plate.{refusal};
ghost use Rattle.plate.specs.declared.Fault.TheVariants as fault;
ghost use Rattle.number.specs.Number.{le};
ghost use Rattle.book.specs.Book.{rises_at, if_good, lookup_of};
ghost use Rattle.book.specs.Inside.{plain_head, doubled_head, sound_head, field_told, verdict_from};

use plate::{Fault, Refusal};

// What a record says: a track ID, a media type, with the mark for a packet that carries two fields, a field number and the packet's offset.
#[derive(Clone, Copy, PartialEq, Eq, Debug)]
pub struct Entry {
    pub track: u8,
    pub media_type: u8,
    pub field: usize,
    pub at: usize,
}

// The first four bytes of a record as one word: marks, an ID up to 63, a known type. Types 7 to 18 show on the word itself, without taking the type out.
#[tactic(auto, unfolding(crate::specs::Inside::plain_head))]
fn is_plain(head: usize) -> bool
    requires { head < 2 ^ 32 }
    ensures { result ≡ plain_head head }
{
    if head % 0x10000 != 0x5847 || 63 < head / 0x10000 % 0x100 {
        return false;
    }
    if 0x7000000 <= head && head < 0x13000000 {
        return true;
    }
    media_type::is_known((head / 0x1000000) as u8)
}

// The same with the mark beside the type, and an even number.
#[tactic(auto, unfolding(crate::specs::Inside::doubled_head))]
fn is_doubled(head: usize, number: u64) -> bool
    requires { head < 2 ^ 32 }
    ensures { result ≡ doubled_head head number }
{
    0x40000000 <= head && field::is_even(number) && is_plain(head - 0x40000000)
}

// Whether a record is good by its first word and number.
fn is_sound(head: usize, number: u64) -> bool
    requires { head < 2 ^ 32 }
    ensures { result ≡ sound_head head number }
{
    is_plain(head) || is_doubled(head, number)
}

// Whether a record is of a field, whatever its track, if it is good by its first word and number. With the mark both fields of its number's half are its own.
#[tactic(auto, unfolding(crate::specs::Inside::field_told))]
fn judged(head: usize, number: u64, field: u64) -> Option<bool>
    requires { head < 2 ^ 32 }
    ensures { result ≡ field_told head number field }
{
    if is_plain(head) {
        Some(number == field)
    } else if is_doubled(head, number) {
        Some(number / 2 == field / 2)
    } else {
        None
    }
}

// Whether the offset of record n may follow the last.
#[tactic(auto, unfolding(crate::specs::Book::rises_at))]
fn rises(n: usize, last: usize, offset: usize) -> bool
    ensures { result ≡ rises_at n last offset }
{
    n == 0 || last < offset
}

fn bad_book(n: usize) -> Result<usize, Refusal>
    ensures { result ≡ Err (refusal fault.Book n) }
{
    Err(plate::refuse(Fault::Book, n))
}

// The offset in the record at a place.
fn offset_at(book: &[u8], at: usize) -> usize
    requires { at + 16 ≤ length book.now }
    ensures { result ≡ le book.now (at + 8) 8 }
{
    number::le8(book, at + 8)
}

// An answer, if no broken tail follows the n records.
fn unless_torn(book: &[u8], n: usize, answer: Result<usize, Refusal>) -> Result<usize, Refusal>
    ensures { result ≡ pick (eqb (length book.now % 16) 0) answer (Err (refusal fault.Book n)) }
{
    if book.len() % 16 == 0 {
        answer
    } else {
        bad_book(n)
    }
}

// The answer that was found, if the records from number `passed` on, its own among them, are good.
fn rest(book: &[u8], passed: usize, before: usize, answer: usize) -> Result<usize, Refusal>
    requires { passed * 16 ≤ length book.now }
    ensures { result ≡ if_good (verdict_from book.now passed before) (Ok answer) }
{
    let records = book.len() / 16;
    let mut last = before;
    for n in passed..records {
        let at = n * 16;
        let here = number::le4(book, at + 4) as u64;
        let offset = offset_at(book, at);
        if !is_sound(number::le4(book, at), here) || !rises(n, last, offset) {
            return bad_book(n);
        }
        last = offset;
    }
    unless_torn(book, records, Ok(answer))
}

// The offset in the first record of a track that is of the field, by its number or, with the mark, by the number below; 23 at the lowest bad record before all, 16 where no record is.
// The words of a record are read before its tests, so that each is one load; once the record is found, only the rest is judged.
pub fn lookup(book: &[u8], track: u64, field: u64) -> Result<usize, Refusal>
    ensures { result ≡ lookup_of book.now track field }
{
    let records = book.len() / 16;
    let mut last: usize = 0;
    for n in 0..records {
        let at = n * 16;
        let head = number::le4(book, at);
        let here = number::le4(book, at + 4) as u64;
        let offset = offset_at(book, at);
        let Some(near) = judged(head, here, field) else {
            return bad_book(n);
        };
        if near && book[at + 2] as u64 == track {
            return rest(book, n, last, offset);
        }
        if !rises(n, last, offset) {
            return bad_book(n);
        }
        last = offset;
    }
    unless_torn(book, records, Err(plate::refuse(Fault::NotThere, 0)))
}
