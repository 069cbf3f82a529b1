// Fields and the numbers that they are.
ghost use Rattle.std.specs.Prelude.{◌≡◌, ◌≤◌, ◌<◌, length, set, MatchOption};
ghost use Rattle.text.specs.Fields.{tab, parts, first_at};
ghost use Rattle.text.specs.Numbers.{is_plain, number_of, numbers_of};
ghost use Rattle.text.specs.Reading.{NumbersMade};

use crate::TAB;

// The greatest number of plan text.
const MOST_NUMBER: usize = 65535;

// Where the first separator stands, if there is one.
pub fn find(bytes: &[u8], separator: u8) -> Option<usize>
    ensures { MatchOption result (first_at separator bytes.now ≡ length bytes.now) (λ n.
        (n ≡ first_at separator bytes.now) × (n < length bytes.now)) }
{
    bytes.iter().position(|b| *b == separator)
}

// Where the first separator stands, or the length.
pub fn end_of(bytes: &[u8], separator: u8) -> usize
    ensures { result ≡ first_at separator bytes.now }
{
    find(bytes, separator).unwrap_or(bytes.len())
}

// Whether a field is without leading zero.
#[tactic(auto, unfolding(crate::specs::Numbers::is_plain))]
fn is_plain(field: &[u8]) -> bool
    requires { 1 ≤ length field.now }
    ensures { result ≡ is_plain field.now }
{
    field.len() == 1 || field[0] != b'0'
}

// The number that a field is. The library's `parse` takes a text, and a sign before the digits: both would have to be ruled out here, which is no
// plainer than the digits one by one.
pub fn number_of(field: &[u8]) -> Option<u16>
    ensures { result ≡ number_of field.now }
{
    if field.is_empty() || !is_plain(field) {
        return None;
    }
    let mut number: usize = 0;
    for digit in field {
        if !digit.is_ascii_digit() {
            return None;
        }
        number = number * 10 + (*digit - b'0') as usize;
        if MOST_NUMBER < number {
            return None;
        }
    }
    Some(number as u16)
}

// Stores a number, if there is room. By the index: the contract of `get_mut` leaves open what the cells are where there is none.
#[tactic(auto, using(std::proofs::lemmas::List::set_past))]
fn keep_number(cells: &mut [u16], at: usize, number: u16)
    ensures { cells.new ≡ set cells.old at number }
{
    if at < cells.len() {
        cells[at] = number;
    }
}

// How many numbers the fields are, if each is one. The cells hold the first of them, as many as there is room for.
pub fn numbers_of(fields: &[u8], cells: &mut [u16]) -> Option<usize>
    ensures { NumbersMade (numbers_of (parts tab fields.now)) result cells.new }
{
    // Counted beside the walk, since the count is the answer, of fields for which there is no cell too.
    let mut count = 0;
    for field in fields.split(|b| *b == TAB) {
        keep_number(cells, count, number_of(field)?);
        count += 1;
    }
    Some(count)
}
