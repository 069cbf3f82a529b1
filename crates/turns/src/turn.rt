// One turn of the filter, apart from the log: the first admitted step, and what it comes to.
ghost use Rattle.std.specs.Prelude.{List, ◌≡◌, ℕ, ◌<◌, length, Some};
ghost use Rattle.plan.specs.Plan.{plan, room_count, task_count};
ghost use Rattle.plan.specs.Lent.{plan_in};
ghost use Rattle.steps.specs.Filter.{next};
ghost use Rattle.turns.specs.Inner.Kept.{Keeping, turn, turn_of};
ghost use Rattle.turns.specs.Inner.Finding.{Loaded};

use crate::State;
use steps::{Judged, Step};
use units::Bounds;

// The first admitted step, with what it comes to: it moves the bounds of a task, or says impossible.
#[derive(Clone, Copy, PartialEq, Eq)]
pub struct Turn {
    pub step: Step,
    pub judged: Judged,
}

impl State<'_> {
    // The turn, by the loads, for every plan whose answers are kept so, whatever its calendars, or none where no step is admitted; a task whose bounds it
    // moves is one of the plan's.
    pub fn next_turn(&self, loads: &[u16]) -> Option<Turn>
        requires { let P = plan_in self.now.plan.now in Loaded P.shifts.hours (room_count P) (task_count P) loads.now self.now.fits.now P.heights }
        ensures answer { (calendars task_calendars work_times : List ℕ) → let P = plan_in self.now.plan.now in
            let Q = plan P.shifts.hours P.capacities calendars task_calendars work_times P.heights P.pairs in
            length task_calendars ≡ task_count P → Keeping Q self.now.boxes.now self.now.fits.now
            → turn_of self.now.boxes.now result ≡ next Q self.now.boxes.now }
        ensures there { (x : Step) (i : ℕ) (b : Bounds) → result ≡ Some (turn x (Judged.Moved i b))
            → i < task_count (plan_in self.now.plan.now) }
    {
        let step = self.next_step(loads)?;
        let judged = self.judge_step(step);
        Some(Turn { step, judged })
    }
}
