// The answers of the calendar rule that are kept beside the boxes, one for each task.
ghost use Rattle.std.specs.Prelude.{◌≡◌, ℕ, ◌≤◌, ◌<◌, length, set};
ghost use Rattle.units.specs.Limits.{most_tasks};
ghost use Rattle.plan.specs.Boxes.{with_bounds};
ghost use Rattle.plan.specs.Lent.{shifts_in};
ghost use Rattle.steps.specs.Load.{fit_at};
ghost use Rattle.propagation.specs.Inner.Fitting.{Fitting, Answered};

use incremental::{Kept, Starts};
use plan::Shifts;
use stretches::Task;
use turns::Fits;
use units::Bounds;

// The answers, by which the steps are judged, and the starts that are kept beside each. No step reads a witness, so none is kept.
#[derive(Clone, Copy)]
pub struct Answers {
    pub fits: Fits,
    pub starts: [Starts; Bounds::MOST],
}

impl Answers {
    // Of no task.
    pub const NONE: Answers = Answers {
        fits: [None; Bounds::MOST],
        starts: [Starts::NONE; Bounds::MOST],
    };

    // Stores what is kept of task i.
    fn keep(&mut self, i: usize, kept: Kept)
        requires { i < most_tasks }
        ensures { (self.new.fits ≡ set self.old.fits i kept.fit) × (self.new.starts ≡ set self.old.starts i kept.starts) }
    {
        self.fits[i] = kept.fit;
        self.starts[i] = kept.starts;
    }
}

// Works out the answers for all tasks, into memory that the caller has: handed over by value they would be copied.
pub fn put_answers(shifts: &Shifts, boxes: &[u16], answers: &mut Answers)
    requires { let S = shifts_in shifts.now in
        (length S.task_calendars ≤ most_tasks) × ((i : ℕ) → i < length S.task_calendars → Fitting S boxes.now i) }
    ensures { Answered (shifts_in shifts.now) (length (shifts_in shifts.now).task_calendars) boxes.now answers.new }
{
    for i in 0..shifts.tasks() {
        answers.keep(i, incremental::answer(&Task::of_plan(shifts, boxes, i)));
    }
}

// Stores the bounds that a task has now, and works its answer out from the one for those that it had.
pub fn move_bounds(shifts: &Shifts, boxes: &mut [u16], answers: &mut Answers, task: u16, b: Bounds)
    requires fits { (task < most_tasks) × Fitting (shifts_in shifts.now) (with_bounds boxes.old task b) task }
    requires answered { let S = shifts_in shifts.now in Answered S (length S.task_calendars) boxes.old answers.old }
    ensures moves { (boxes.new ≡ with_bounds boxes.old task b)
        × (answers.new.fits ≡ set answers.old.fits task (fit_at (shifts_in shifts.now) boxes.new task)) }
    ensures answered { let S = shifts_in shifts.now in Answered S (length S.task_calendars) boxes.new answers.new }
{
    let i = task as usize;
    let before = plan::bounds_at(boxes, i);
    let kept = Kept {
        fit: answers.fits[i],
        starts: answers.starts[i],
    };
    plan::put_bounds(boxes, i, b);
    answers.keep(
        i,
        incremental::answer_after(&Task::of_plan(shifts, boxes, i), before, kept),
    );
}
