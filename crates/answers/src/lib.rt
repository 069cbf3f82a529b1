// The numbers that a caller in C is handed for each answer: a refusal's number and place, then the values; 0 where there is none.
// Each public function is the two arms of a Result: a common one would take the second arm as a closure, which is no plainer.
#![tactic(auto)]

ghost use Rattle.std.specs.Prelude.{◌≡◌, ◌≤◌};
ghost use Rattle.plan.specs.Boxes.{box_cells};
ghost use Rattle.plan.specs.Refusals.{fault_of, answer_of};
ghost use Rattle.schedule.specs.Entry.{schedule_answer};
ghost use Rattle.steps.specs.Entry.{filter_answer};
ghost use Rattle.plan_text.specs.Entry.{reading_answer};
ghost use Rattle.answers.specs.Numbers.{refused_numbers, with_triple, window_numbers, rule_numbers, schedule_numbers, log_numbers, filter_numbers, read_numbers, write_numbers};

use calendar::{Triple, Witnessed};
use plan::{Fault, Refusal, box_cells};
use plan_text::PlanRead;
use steps::{Accepted, Ending, Filtered};
use units::{Bounds, Hour};

// How many numbers the calendar rule's answer has: the refusal's two, whether there is a window, eight of it, and three of each bound's witness.
const RULE_NUMBERS: usize = 29;

// A refusal's number and place, of an answer of so many numbers.
fn refused<const N: usize>(refusal: Refusal) -> [u64; N]
    requires { 2 ≤ N }
    ensures { result ≡ refused_numbers N (fault_of refusal) }
{
    let fault = Fault::from(refusal);
    let mut numbers = [0u64; N];
    numbers[0] = fault.number as u64;
    numbers[1] = fault.place as u64;
    numbers
}

// The calendar rule's numbers with s, e and o of a triple from a place on.
fn with_triple(numbers: [u64; RULE_NUMBERS], at: usize, t: Triple) -> [u64; RULE_NUMBERS]
    requires { at ≤ 26 }
    ensures { result ≡ with_triple numbers at t }
{
    let mut next = numbers;
    next[at] = t.start.0 as u64;
    next[at + 1] = t.elapsed.0 as u64;
    next[at + 2] = t.overtime.0 as u64;
    next
}

// The bounds of S, E and O, the lower first.
fn bound_numbers(b: Bounds) -> [u64; Bounds::NUMBERS]
    ensures { result ≡ box_cells b }
{
    box_cells(b).map(u64::from)
}

// A window's: S, E and O, the lower bound first, ect and lct, then the witness of each bound.
fn window_numbers(found: Witnessed) -> [u64; RULE_NUMBERS]
    ensures { result ≡ window_numbers found }
{
    let mut bounds = [0u64; RULE_NUMBERS];
    bounds[2] = 1;
    bounds[3..9].copy_from_slice(&bound_numbers(found.window.bounds));
    bounds[9] = found.window.ect.0 as u64;
    bounds[10] = found.window.lct.0 as u64;
    let by = found.by;
    let lower_start = with_triple(bounds, 11, by.earliest);
    let start = with_triple(lower_start, 14, by.latest);
    let lower_elapsed = with_triple(start, 17, by.shortest);
    let elapsed = with_triple(lower_elapsed, 20, by.longest);
    let lower_overtime = with_triple(elapsed, 23, by.fewest);
    with_triple(lower_overtime, 26, by.most)
}

pub fn rule_numbers(answer: Result<Option<Witnessed>, Refusal>) -> [u64; RULE_NUMBERS]
    ensures { result ≡ rule_numbers (answer_of answer) }
{
    match answer {
        Err(refusal) => refused(refusal),
        Ok(None) => [0; RULE_NUMBERS],
        Ok(Some(window)) => window_numbers(window),
    }
}

pub fn schedule_numbers(answer: Result<Hour, Refusal>) -> [u64; 3]
    ensures { result ≡ schedule_numbers (schedule_answer answer) }
{
    match answer {
        Err(refusal) => refused(refusal),
        Ok(end) => [0, 0, end.0 as u64],
    }
}

pub fn log_numbers(answer: Result<Accepted, Refusal>) -> [u64; 4]
    ensures { result ≡ log_numbers (answer_of answer) }
{
    match answer {
        Err(refusal) => refused(refusal),
        Ok(accepted) => [0, 0, accepted.steps as u64, accepted.impossible as u64],
    }
}

pub fn filter_numbers(answer: Result<Filtered, Refusal>) -> [u64; 4]
    ensures { result ≡ filter_numbers (filter_answer answer) }
{
    match answer {
        Err(refusal) => refused(refusal),
        Ok(filtered) => {
            let count = filtered.count as u64;
            match filtered.ending {
                Ending::NoRoom => [32, 0, count, 0],
                Ending::Settled => [0, 0, count, 0],
                Ending::Impossible => [0, 0, count, 1],
            }
        }
    }
}

pub fn read_numbers(answer: Result<PlanRead, Refusal>) -> [u64; 7]
    ensures { result ≡ read_numbers (reading_answer answer) }
{
    match answer {
        Err(refusal) => refused(refusal),
        Ok(read) => [
            0,
            0,
            read.hours as u64,
            read.rooms as u64,
            read.calendars as u64,
            read.tasks as u64,
            read.pairs as u64,
        ],
    }
}

pub fn write_numbers(answer: Result<usize, Refusal>) -> [u64; 3]
    ensures { result ≡ write_numbers (answer_of answer) }
{
    match answer {
        Err(refusal) => refused(refusal),
        Ok(length) => [0, 0, length as u64],
    }
}
