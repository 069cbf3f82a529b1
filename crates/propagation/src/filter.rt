// The filter: takes the first admitted step of each turn, and logs it.
ghost use Rattle.std.specs.Prelude.{true, ◌≡◌, ℕ, ◌+◌, ◌*◌, ◌^◌, ◌≤◌, ◌<◌, length, get_or, Ok};
ghost use Rattle.units.specs.Limits.{most_hours, most_rooms};
ghost use Rattle.plan.specs.Plan.{room_count};
ghost use Rattle.plan.specs.Lent.{packed_in, plan_in};
ghost use Rattle.plan.specs.Passed.{Passed};
ghost use Rattle.plan.specs.Over.{SameOverLetters};
ghost use Rattle.steps.specs.Filter.{run};
ghost use Rattle.steps.specs.Entry.{steps_from, one_for_each_step, check_records_packed, filter_end, filter_plan, filter_packed, filter_answer};
ghost use Rattle.steps.specs.Inner.From.{logged_from, filter_from};
ghost use Rattle.steps.specs.Claim.{FilterHolds};

use crate::{entry, kept};
use plan::{Plan, Refusal};
use steps::{Ending, Filtered, Judged};
use turns::{State, load};
use units::{Duration, MOST_ROOMS};

// The run on a plan that passed its tests, after so many steps taken before, with memory for the loads of the hours, all numbers 0. The answers of the
// calendar rule are kept, and of the moved task's only what the step changed is worked out; the loads are kept too, and mended by its old and its new
// compulsory part.
fn run_filter(
    plan: &Plan,
    boxes: &mut [u16],
    log_kinds: &mut [u8],
    log_tasks: &mut [u16],
    log_hours: &mut [u16],
    taken: usize,
    loads: &mut [u16],
) -> Filtered
    requires passed { Passed (plan_in plan.now) boxes.old
        × (one_for_each_step log_kinds.old log_tasks.old log_hours.old ≡ true) }
    requires count_fits { taken + length log_kinds.old < 2 ^ 64 }
    requires loads { let P = plan_in plan.now in
        (length loads.old ≡ room_count P * P.shifts.hours) × ((k : ℕ) → k < length loads.old → get_or loads.old k 0 ≡ 0) }
    ensures { let P = plan_in plan.now in
        let run = run P boxes.old (length log_kinds.old) in
        filter_end (filter_answer (Ok result)) boxes.new log_kinds.new log_tasks.new log_hours.new
        ≡ logged_from taken run log_kinds.old log_tasks.old log_hours.old }
{
    let mut answers = kept::Answers::NONE;
    kept::put_answers(&plan.shifts, boxes, &mut answers);
    load::fill_loads(plan, &answers.fits, loads);
    // Where the next step goes in each of the three slices, and how many steps the answer counts.
    let mut count: usize = 0;
    loop {
        // `&*`: what a state lends is lent for one turn.
        let state = State {
            plan: &*plan,
            boxes,
            fits: &answers.fits,
        };
        let Some(next) = state.next_turn(loads) else {
            return Filtered {
                ending: Ending::Settled,
                count: taken + count,
            };
        };
        if log_kinds.len() <= count {
            return Filtered {
                ending: Ending::NoRoom,
                count: taken + count,
            };
        }
        log_kinds[count] = next.step.kind;
        log_tasks[count] = next.step.task;
        log_hours[count] = next.step.hour;
        count += 1;
        let Judged::Moved { task, bounds } = next.judged else {
            return Filtered {
                ending: Ending::Impossible,
                count: taken + count,
            };
        };
        let was = answers.fits[task as usize];
        kept::move_bounds(&plan.shifts, boxes, &mut answers, task, bounds);
        load::mend_loads(plan, &answers.fits, loads, task as usize, was);
    }
}

// Loads are one an hour in each room. So few hold those of a week in six rooms, or of six weeks in one.
const FEW_LOADS: usize = 1_008;

// Those of a year in one room.
const YEAR_LOADS: usize = Duration::MOST as usize;

// The most: those of a year in all the rooms that there may be.
const MOST_LOADS: usize = MOST_ROOMS * YEAR_LOADS;

// How many loads a plan has.
fn load_count(plan: &Plan) -> usize
    requires { let P = plan_in plan.now in (room_count P ≤ most_rooms) × (P.shifts.hours ≤ most_hours) }
    ensures { let P = plan_in plan.now in (result ≡ room_count P * P.shifts.hours) × (result ≤ most_rooms * most_hours) }
{
    plan.rooms() * plan.shifts.hours.0 as usize
}

// The run with memory for so many loads, of which the plan has the first. An array is set to 0 whole, and a function pays at entry for its arrays: one
// function for each size, so that a small plan does not pay for a large one.
#[inline(never)]
fn run_with<const LOADS: usize>(
    plan: &Plan,
    boxes: &mut [u16],
    log_kinds: &mut [u8],
    log_tasks: &mut [u16],
    log_hours: &mut [u16],
    taken: usize,
    count: usize,
) -> Filtered
    requires passed { Passed (plan_in plan.now) boxes.old
        × (one_for_each_step log_kinds.old log_tasks.old log_hours.old ≡ true) }
    requires count_fits { taken + length log_kinds.old < 2 ^ 64 }
    requires size { LOADS ≤ most_rooms * most_hours }
    requires loads { let P = plan_in plan.now in (count ≡ room_count P * P.shifts.hours) × (count ≤ LOADS) }
    ensures { let P = plan_in plan.now in
        let run = run P boxes.old (length log_kinds.old) in
        filter_end (filter_answer (Ok result)) boxes.new log_kinds.new log_tasks.new log_hours.new
        ≡ logged_from taken run log_kinds.old log_tasks.old log_hours.old }
{
    let mut loads = [0u16; LOADS];
    run_filter(
        plan,
        boxes,
        log_kinds,
        log_tasks,
        log_hours,
        taken,
        &mut loads[..count],
    )
}

// The filter from a count on: after so many steps taken before, on the boxes that they left. The answer counts from the run's first step.
pub fn filter_from(
    plan: &Plan,
    boxes: &mut [u16],
    log_kinds: &mut [u8],
    log_tasks: &mut [u16],
    log_hours: &mut [u16],
    taken: usize,
) -> Result<Filtered, Refusal>
    requires { taken + length log_kinds.old < 2 ^ 64 }
    ensures { filter_end (filter_answer result) boxes.new log_kinds.new log_tasks.new log_hours.new
        ≡ filter_from (packed_in plan.now) boxes.old log_kinds.old log_tasks.old log_hours.old taken }
{
    entry::test_entry(plan, boxes, log_kinds, log_tasks, log_hours)?;
    let count = load_count(plan);
    let filtered = if count <= FEW_LOADS {
        run_with::<FEW_LOADS>(plan, boxes, log_kinds, log_tasks, log_hours, taken, count)
    } else if count <= YEAR_LOADS {
        run_with::<YEAR_LOADS>(plan, boxes, log_kinds, log_tasks, log_hours, taken, count)
    } else {
        run_with::<MOST_LOADS>(plan, boxes, log_kinds, log_tasks, log_hours, taken, count)
    };
    Ok(filtered)
}

// The filter, with the log lent as its room. A refused plan changes nothing; log cells past the count are untouched.
pub fn filter(
    plan: &Plan,
    boxes: &mut [u16],
    log_kinds: &mut [u8],
    log_tasks: &mut [u16],
    log_hours: &mut [u16],
) -> Result<Filtered, Refusal>
    ensures answer { filter_end (filter_answer result) boxes.new log_kinds.new log_tasks.new log_hours.new
        ≡ filter_packed (packed_in plan.now) boxes.old log_kinds.old log_tasks.old log_hours.old }
    ensures holds { let check = check_records_packed (packed_in plan.now) boxes.old in
        let steps = steps_from log_kinds.new log_tasks.new log_hours.new 0 in
        FilterHolds (plan_in plan.now) boxes.old check (length log_kinds.old) (filter_answer result) boxes.new steps }
    ensures letters { let left = filter_end (filter_answer result) boxes.new log_kinds.new log_tasks.new log_hours.new in
        SameOverLetters (packed_in plan.now) left (λ Q. filter_plan Q boxes.old log_kinds.old log_tasks.old log_hours.old) }
{
    filter_from(plan, boxes, log_kinds, log_tasks, log_hours, 0)
}
