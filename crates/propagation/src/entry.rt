// The tests that the log checker and the filter share.
ghost use Rattle.std.specs.Prelude.{◌≡◌};
ghost use Rattle.plan.specs.Refusals.{tested_fault};
ghost use Rattle.plan.specs.Lent.{packed_in};
ghost use Rattle.steps.specs.Entry.{one_for_each_step, packed_entry_fault};

use plan::{Plan, Refusal};

// Whether the slices of a log number one for each step.
#[tactic(auto, unfolding(steps::specs::Entry::one_for_each_step))]
fn has_one_for_each_step(log_kinds: &[u8], log_tasks: &[u16], log_hours: &[u16]) -> bool
    ensures { result ≡ one_for_each_step log_kinds.now log_tasks.now log_hours.now }
{
    log_tasks.len() == log_kinds.len() && log_hours.len() == log_kinds.len()
}

// 31, then the plan's tests.
pub fn test_entry(
    plan: &Plan,
    boxes: &[u16],
    log_kinds: &[u8],
    log_tasks: &[u16],
    log_hours: &[u16],
) -> Result<(), Refusal>
    ensures { tested_fault result ≡ packed_entry_fault (packed_in plan.now) boxes.now log_kinds.now log_tasks.now log_hours.now }
{
    if !input::is_right_size(plan, boxes)
        || !has_one_for_each_step(log_kinds, log_tasks, log_hours)
    {
        return Err(Refusal::MemorySize);
    }
    input::test_plan(plan, boxes)
}
