// The records of plan text, one a line.
#![tactic(auto)]

ghost use Rattle.std.specs.Prelude.{◌≡◌, ◌≤◌, ◌∷◌, length, MatchOption};
ghost use Rattle.text.specs.Fields.{tab, parts};
ghost use Rattle.text.specs.Reading.{NumbersMade};
ghost use Rattle.plan_format.specs.Records.{cal_record, numbers_if, cal_of, by_word, record_of};
ghost use Rattle.plan_records.specs.Inner.Lines.{Finds};

use text::TAB;
use text::fields::{find, numbers_of};
use units::Pair;

// A line's record: how many numbers a `plan` or a `task` line has, the symbols of a `cal` line. An `after` line has two numbers.
#[derive(Clone, Copy)]
pub enum LineRecord<'a> {
    Plan(usize),
    Cal(&'a [u8]),
    Task(usize),
    After,
}

// How many numbers the fields are, if there are `least` of them or more.
fn numbers_if(fields: &[u8], least: usize, numbers: &mut [u16]) -> Option<usize>
    ensures { NumbersMade (numbers_if least (parts tab fields.now)) result numbers.new }
{
    numbers_of(fields, numbers).filter(|count| least <= *count)
}

// The symbols that the fields are: one field, not empty.
fn symbols_of(fields: &[u8]) -> Option<&[u8]>
    ensures { MatchOption result (cal_of (parts tab fields.now) ≡ None) (λ symbols.
        (cal_of (parts tab fields.now) ≡ Some (cal_record symbols.now)) × (length symbols.now ≤ length fields.now)) }
{
    (!fields.is_empty() && !fields.contains(&TAB)).then_some(fields)
}

// A record, by the first field of its line and the fields after it.
fn by_word<'a>(word: &[u8], fields: &'a [u8], numbers: &mut [u16]) -> Option<LineRecord<'a>>
    ensures { Finds (by_word (word.now ∷ parts tab fields.now)) result fields.now numbers.new }
{
    match word {
        b"plan" => Some(LineRecord::Plan(numbers_if(fields, 1, numbers)?)),
        b"cal" => Some(LineRecord::Cal(symbols_of(fields)?)),
        b"task" => Some(LineRecord::Task(numbers_if(fields, 2, numbers)?)),
        b"after" => (numbers_of(fields, numbers)? == Pair::NUMBERS).then_some(LineRecord::After),
        _ => None,
    }
}

// A line's record. The cells hold the first of its numbers, as many as there is room for.
pub fn record_of<'a>(line: &'a [u8], numbers: &mut [u16]) -> Option<LineRecord<'a>>
    ensures { Finds (record_of line.now) result line.now numbers.new }
{
    let end = find(line, TAB)?;
    by_word(&line[..end], &line[end + 1..], numbers)
}
