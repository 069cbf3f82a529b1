// The log checker: a log from anyone, step by step, each at its turn.
ghost use Rattle.std.specs.Prelude.{true, ◌≡◌, ◌+◌, ◌^◌, ◌<◌, length};
ghost use Rattle.plan.specs.Lent.{packed_in, plan_in};
ghost use Rattle.plan.specs.Refusals.{answer_of};
ghost use Rattle.plan.specs.Passed.{Passed};
ghost use Rattle.plan.specs.Over.{SameOverLetters};
ghost use Rattle.steps.specs.Log.{replay_from};
ghost use Rattle.steps.specs.Entry.{steps_in, one_for_each_step, packed_entry_fault, check_log, check_log_packed, check_answer};
ghost use Rattle.steps.specs.Inner.From.{check_from};
ghost use Rattle.steps.specs.Claim.{CheckedHolds};

use crate::{entry, kept};
use plan::{Plan, Refusal};
use steps::{Accepted, Judged, Step};
use turns::State;

// The replay of a log on a plan that passed its tests, after the steps that were accepted before its first, from the boxes that they left. The
// answers of the calendar rule are kept, and of the moved task's only what the step changed is worked out.
fn replay_log(
    plan: &Plan,
    boxes: &mut [u16],
    log_kinds: &[u8],
    log_tasks: &[u16],
    log_hours: &[u16],
    after: Accepted,
) -> Result<Accepted, Refusal>
    requires passed { Passed (plan_in plan.now) boxes.old
        × (one_for_each_step log_kinds.now log_tasks.now log_hours.now ≡ true) }
    requires count_fits { after.steps + length log_kinds.now < 2 ^ 64 }
    ensures { let P = plan_in plan.now in
        let e = replay_from P after.steps after.impossible boxes.old (steps_in log_kinds.now log_tasks.now log_hours.now) in
        (answer_of result ≡ check_answer e) × (boxes.new ≡ e.boxes) }
{
    let mut answers = kept::Answers::NONE;
    kept::put_answers(&plan.shifts, boxes, &mut answers);
    let mut impossible = after.impossible;
    // By number: a step lies in three slices, which zips would nest, and its number is the place that a refusal names.
    for k in 0..log_kinds.len() {
        if impossible {
            return Err(Refusal::AfterImpossible(after.steps + k));
        }
        let x = Step {
            kind: log_kinds[k],
            task: log_tasks[k],
            hour: log_hours[k],
        };
        let state = State {
            plan: &*plan,
            boxes,
            fits: &answers.fits,
        };
        match state.judge_step(x) {
            Judged::Unknown => {
                return Err(Refusal::UnknownStep(after.steps + k));
            }
            Judged::NotAdmitted => {
                return Err(Refusal::NotAdmitted(after.steps + k));
            }
            Judged::Impossible => {
                impossible = true;
                continue;
            }
            Judged::Moved { task, bounds } => {
                kept::move_bounds(&plan.shifts, boxes, &mut answers, task, bounds);
            }
        }
    }
    Ok(Accepted {
        steps: after.steps + log_kinds.len(),
        impossible,
    })
}

// The log checker from a step on: after the steps that were accepted before it, on the boxes that they left. The answer counts those steps too.
pub fn check_from(
    plan: &Plan,
    boxes: &mut [u16],
    log_kinds: &[u8],
    log_tasks: &[u16],
    log_hours: &[u16],
    after: Accepted,
) -> Result<Accepted, Refusal>
    requires { after.steps + length log_kinds.now < 2 ^ 64 }
    ensures { let e = check_from (packed_in plan.now) boxes.old log_kinds.now log_tasks.now log_hours.now after.steps after.impossible in
        (answer_of result ≡ check_answer e) × (boxes.new ≡ e.boxes) }
{
    entry::test_entry(plan, boxes, log_kinds, log_tasks, log_hours)?;
    replay_log(plan, boxes, log_kinds, log_tasks, log_hours, after)
}

// Before a log's first step.
pub const NO_STEPS: Accepted = Accepted {
    steps: 0,
    impossible: false,
};

// The log checker. Accepted or refused by 11, 12 or 13, the boxes become those at the log's end; any other refusal changes nothing.
pub fn check_log(
    plan: &Plan,
    boxes: &mut [u16],
    log_kinds: &[u8],
    log_tasks: &[u16],
    log_hours: &[u16],
) -> Result<Accepted, Refusal>
    ensures answer { let e = check_log_packed (packed_in plan.now) boxes.old log_kinds.now log_tasks.now log_hours.now in
        (answer_of result ≡ check_answer e) × (boxes.new ≡ e.boxes) }
    ensures holds { let refusal = packed_entry_fault (packed_in plan.now) boxes.old log_kinds.now log_tasks.now log_hours.now in
        let steps = steps_in log_kinds.now log_tasks.now log_hours.now in
        CheckedHolds (plan_in plan.now) boxes.old refusal steps (answer_of result) boxes.new }
    ensures letters { let P = packed_in plan.now in
        SameOverLetters P (answer_of result) (λ Q. check_answer (check_log Q boxes.old log_kinds.now log_tasks.now log_hours.now))
        × SameOverLetters P boxes.new (λ Q. (check_log Q boxes.old log_kinds.now log_tasks.now log_hours.now).boxes) }
{
    check_from(plan, boxes, log_kinds, log_tasks, log_hours, NO_STEPS)
}
