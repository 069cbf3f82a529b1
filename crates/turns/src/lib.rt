// One turn: the loads of the hours, what a step comes to, and the search for the first admitted step.
#![tactic(auto)]

ghost use Rattle.std.specs.Prelude.{◌≤◌};
ghost use Rattle.units.specs.Limits.{most_hours};
ghost use Rattle.plan.specs.Plan.{room_count, task_count};
ghost use Rattle.plan.specs.Lent.{plan_in};
ghost use Rattle.turns.specs.Inner.Ready.{Ready, PairsReady};

use calendar::Window;
use plan::Plan;
use units::Bounds;

pub mod judge;
pub mod load;
mod scan;
mod search;
mod side;
pub mod turn;

// The answers of the calendar rule that are kept, one for each task: an array of the most tasks, since memory is fixed.
pub type Fits = [Option<Window>; Bounds::MOST];

// What a turn is judged from: a plan, the boxes as they are, and the answers of the calendar rule that are kept. Plan and boxes are small enough
// that no sum of a turn wraps, and the pairs name tasks of the plan.
#[derive(Clone, Copy)]
pub struct State<'a> {
    pub plan: &'a Plan<'a>,
    pub boxes: &'a [u16],
    pub fits: &'a Fits,
    ghost ready: { let P = plan_in plan.now in Ready (room_count P) (task_count P) P.heights boxes.now },
    ghost short: { (plan_in plan.now).shifts.hours ≤ most_hours },
    ghost pairs_ready: { PairsReady (plan_in plan.now) },
}
