// The log checker and the filter over a log that is a lent slice of step records, of any length: thin functions over `propagation`, which works
// on three slices of numbers. The steps go there part by part, each part on the boxes that the one before it left.
#![tactic(auto)]

ghost use Rattle.std.specs.Prelude.{◌≡◌, ◌++◌, ◌+◌, ◌≤◌, ◌<◌, length, get_or, set, take, drop};
ghost use Rattle.units.specs.Cells.{written};
ghost use Rattle.plan.specs.Lent.{packed_in, plan_in};
ghost use Rattle.plan.specs.Refusals.{answer_of};
ghost use Rattle.plan.specs.Over.{SameOverLetters};
ghost use Rattle.steps.specs.Claim.{CheckedHolds, FilterHolds};
ghost use Rattle.steps.specs.Entry.{packed_input_fault, check_answer, filter_answer};
ghost use Rattle.step_log.specs.Entry.{check_steps, check_steps_packed, steps_end, filter_steps, filter_steps_packed};
ghost use Rattle.step_log.specs.Inner.Size.{part_size};
ghost use Rattle.step_log.specs.Inner.Parts.{no_step, part_steps};

use part::{Part, PartFiltered};
use plan::{Plan, Refusal};
use propagation::replay::NO_STEPS;
use steps::{Accepted, Filtered, Step};

mod part;

// The steps from one on, as many as a part holds or the log has.
fn part_at(log: &[Step], from: usize) -> Part
    requires { from ≤ length log.now }
    ensures { part_steps result ≡ take part_size (drop from log.now) }
{
    let end = part::part_end(from, log.len());
    let mut steps = Part::new();
    for x in &log[from..end] {
        steps.push(*x);
    }
    steps
}

// The steps of a part become those of the log from one on.
fn put_part(log: &mut [Step], from: usize, steps: &Part)
    requires { from + steps.now.count ≤ length log.old }
    ensures { log.new ≡ (take from log.old ++ written (part_steps steps.now) (drop from log.old)) }
{
    let to = from + steps.count;
    for (k, cell) in log[from..to].iter_mut().enumerate() {
        *cell = steps.step(k);
    }
}

// The log checker. Accepted or refused by 11, 12 or 13, the boxes become those at the log's end; any other refusal changes nothing.
pub fn check_log(plan: &Plan, boxes: &mut [u16], log: &[Step]) -> Result<Accepted, Refusal>
    ensures answer { let e = check_steps_packed (packed_in plan.now) boxes.old log.now in
        (answer_of result ≡ check_answer e) × (boxes.new ≡ e.boxes) }
    ensures holds { let refusal = packed_input_fault (packed_in plan.now) boxes.old in
        CheckedHolds (plan_in plan.now) boxes.old refusal log.now (answer_of result) boxes.new }
    ensures letters { let P = packed_in plan.now in
        SameOverLetters P (answer_of result) (λ Q. check_answer (check_steps Q boxes.old log.now))
        × SameOverLetters P boxes.new (λ Q. (check_steps Q boxes.old log.now).boxes) }
{
    let mut accepted = NO_STEPS;
    loop {
        let steps = part_at(log, accepted.steps);
        accepted = steps.check(plan, boxes, accepted)?;
        // A part that is not full is the last one.
        if steps.count < Part::SIZE {
            return Ok(accepted);
        }
    }
}

// The filter, with the log lent as its room. A refused plan changes nothing; log cells past the count are untouched.
pub fn filter(plan: &Plan, boxes: &mut [u16], log: &mut [Step]) -> Result<Filtered, Refusal>
    ensures answer { steps_end (filter_answer result) boxes.new log.new ≡ filter_steps_packed (packed_in plan.now) boxes.old log.old }
    ensures holds { let check = check_steps_packed (packed_in plan.now) boxes.old in
        FilterHolds (plan_in plan.now) boxes.old check (length log.old) (filter_answer result) boxes.new (λ n. take n log.new) }
    ensures letters { let left = steps_end (filter_answer result) boxes.new log.new in
        SameOverLetters (packed_in plan.now) left (λ Q. filter_steps Q boxes.old log.old) }
{
    let room = log.len();
    let mut taken = 0;
    loop {
        let part = PartFiltered::run(plan, boxes, taken, room)?;
        put_part(log, taken, &part.steps);
        if !part.goes_on(room) {
            return Ok(part.filtered);
        }
        taken = part.filtered.count;
    }
}
