// What a step comes to at its turn.
ghost use Rattle.std.specs.Prelude.{◌≡◌, ℕ, ◌+◌, ◌-◌, ◌<◌, leb, ltb, Some, if◌then◌else◌};
ghost use Rattle.units.specs.Choice.{◌and◌, on_option};
ghost use Rattle.units.specs.Limits.{most_hours, is_hour, is_room_number, with_earliest, with_latest};
ghost use Rattle.units.specs.declared.Height.{Height};
ghost use Rattle.plan.specs.Plan.{room_count, task_count, heights_of};
ghost use Rattle.plan.specs.Lent.{plan_in};
ghost use Rattle.steps.specs.Steps.{kind_in, is_step};
ghost use Rattle.turns.specs.Inner.Kept.{load_of, exceeds, excess_by, calendar_by, bound_by, pair_by, judge_by, is_lower};

use crate::side::Side;
use crate::{State, load};
use calendar::Window;
use plan::Plan;
use steps::{Judged, Step, StepKind};
use units::{Bounds, Duration, Height, Hour, Pair, RoomNumber};

// Whether a task of the height exceeds a room's capacity in the hour, with the other tasks' load there. A task that must run in the hour is in its
// load already.
pub fn exceeds(w: Window, height: Height, load: Height, capacity: Height, t: Hour) -> bool
    requires { height.0 + load.0 < 65536 }
    ensures { result ≡ exceeds w height.0 load.0 capacity.0 t.0 }
{
    if load::must_run(w, t) {
        return load > capacity;
    }
    height.plus(load) > capacity
}

// C of a task with the bounds and the calendar rule's answer.
fn judge_calendar(fit: Option<Window>, task: u16, b: Bounds) -> Judged
    ensures { result ≡ calendar_by fit task b }
{
    let Some(w) = fit else {
        return Judged::Impossible;
    };
    let bounds = w.bounds;
    if bounds == b {
        return Judged::NotAdmitted;
    }
    Judged::Moved { task, bounds }
}

// O of a room and an hour with the load.
fn judge_load(capacity: Height, load: Height) -> Judged
    ensures { result ≡ (if ltb capacity.0 load.0 then Judged.Impossible else Judged.NotAdmitted) }
{
    if load > capacity {
        return Judged::Impossible;
    }
    Judged::NotAdmitted
}

// What an admitted step that is to move a bound of S comes to: the task with other bounds, or none that it could have.
#[tactic(auto, unfolding(units::specs::Choice::on_option))]
fn moved(task: u16, bounds: Option<Bounds>) -> Judged
    ensures { result ≡ on_option bounds Judged.Impossible (λ b. Judged.Moved task b) }
{
    match bounds {
        Some(bounds) => Judged::Moved { task, bounds },
        None => Judged::Impossible,
    }
}

// L or F of a task with the bounds, where it is admitted: the lower S becomes the hour.
fn judge_lower(task: u16, b: Bounds, earliest: Hour) -> Judged
    ensures { result ≡
        (if ltb b.latest.0 earliest.0 then Judged.Impossible else Judged.Moved task (with_earliest b earliest.0)) }
{
    moved(task, b.starting_from(earliest))
}

// U or B likewise: the upper S becomes the hour minus the lower E. Where that would be before the plan, it is below the lower S.
fn judge_upper(task: u16, b: Bounds, t: Hour) -> Judged
    ensures { result ≡
        (if ltb t.0 (b.earliest.0 + b.shortest.0) then Judged.Impossible else Judged.Moved task (with_latest b (t.0 - b.shortest.0))) }
{
    let bounds = t.minus(b.shortest).and_then(|latest| b.starting_by(latest));
    moved(task, bounds)
}

// Whether the number is an hour of the plan.
fn is_hour(hours: Duration, number: u16) -> bool
    ensures { result ≡ is_hour hours.0 number }
{
    Hour::of_plan(number, hours).is_some()
}

// Whether the number is a room of the plan.
fn is_room(rooms: usize, number: u16) -> bool
    ensures { result ≡ is_room_number rooms number }
{
    RoomNumber::of_plan(number, rooms).is_some()
}

// Whether 01's 11 does not apply to a step of the kind, in the plan.
#[tactic(auto, unfolding(steps::specs::Steps::is_step))]
fn is_step(plan: &Plan, kind: StepKind, x: Step) -> bool
    ensures { let P = plan_in plan.now in
        result ≡ is_step P (kind_in (Some kind)) x.task x.hour }
{
    match kind {
        StepKind::Calendar => (x.task as usize) < plan.tasks() && x.hour == 0,
        StepKind::Overload => is_room(plan.rooms(), x.task) && is_hour(plan.shifts.hours, x.hour),
        StepKind::Lower | StepKind::Upper => (x.task as usize) < plan.tasks()
            && is_hour(plan.shifts.hours, x.hour),
        StepKind::Forward | StepKind::Backward => (x.task as usize) < plan.pair_count()
            && x.hour == 0,
    }
}

impl State<'_> {
    // Whether task i exceeds some room's capacity in the hour, with the load that a room has in it: worked out there for a step that is judged, read
    // from the loads of all hours for one that is looked for.
    pub(crate) fn has_excess<F: Fn(usize) -> Height>(
        &self,
        w: Window,
        i: usize,
        t: Hour,
        load_in: F,
    ) -> bool
        requires task { i < task_count (plan_in self.now.plan.now) }
        requires loads { let P = plan_in self.now.plan.now in
            (room : ℕ) → room < room_count P → F.pre load_in room
            × ((load : Height) → F.post load_in room load → load.0 ≡ load_of self.now.fits.now (heights_of P room) t.0) }
        ensures { let P = plan_in self.now.plan.now in result ≡ excess_by P self.now.fits.now w i t.0 }
    {
        for (room, capacity) in self.plan.capacities.iter().enumerate() {
            let height = plan::height_at(self.plan.heights_of(room), i);
            if exceeds(w, height, load_in(room), Height(*capacity), t) {
                return true;
            }
        }
        false
    }

    // L of a task, or U: which of the two bounds of its start moves.
    fn judge_bound(&self, side: Side, task: u16, t: Hour) -> Judged
        requires { (task < task_count (plan_in self.now.plan.now)) × (t.0 < most_hours) }
        ensures { result ≡ bound_by (plan_in self.now.plan.now) self.now.boxes.now self.now.fits.now (is_lower side) task t.0 }
    {
        let i = task as usize;
        let Some(w) = self.fits[i] else {
            return Judged::NotAdmitted;
        };
        let b = plan::bounds_at(self.boxes, i);
        if t < side.first_hour(w, b) || side.end_hour(w, b) <= t {
            return Judged::NotAdmitted;
        }
        if !self.has_excess(w, i, t, |room| self.load_in(room, t)) {
            return Judged::NotAdmitted;
        }
        match side {
            Side::Lower => judge_lower(task, b, t.plus(Duration(1))),
            Side::Upper => judge_upper(task, b, t),
        }
    }

    // F of a pair, or B: the bound of the later task's start moves, or of the earlier one's.
    pub(crate) fn judge_pair(&self, side: Side, pair: Pair) -> Judged
        requires { let P = plan_in self.now.plan.now in (pair.earlier < task_count P) × (pair.later < task_count P) }
        ensures { result ≡ pair_by (plan_in self.now.plan.now) self.now.boxes.now self.now.fits.now (is_lower side) pair }
    {
        let Some(first) = self.fits[pair.earlier as usize] else {
            return Judged::NotAdmitted;
        };
        let Some(second) = self.fits[pair.later as usize] else {
            return Judged::NotAdmitted;
        };
        match side {
            Side::Lower => {
                let b = plan::bounds_at(self.boxes, pair.later as usize);
                if first.ect <= b.earliest {
                    return Judged::NotAdmitted;
                }
                judge_lower(pair.later, b, first.ect)
            }
            Side::Upper => {
                let b = plan::bounds_at(self.boxes, pair.earlier as usize);
                let latest = second.bounds.latest;
                if b.latest.plus(b.shortest) <= latest {
                    return Judged::NotAdmitted;
                }
                judge_upper(pair.earlier, b, latest)
            }
        }
    }

    // What a step comes to at its turn.
    pub fn judge_step(&self, x: Step) -> Judged
        ensures { result ≡ judge_by (plan_in self.now.plan.now) self.now.boxes.now self.now.fits.now x }
    {
        let Some(kind) = StepKind::of_letter(x.kind) else {
            return Judged::Unknown;
        };
        if !is_step(self.plan, kind, x) {
            return Judged::Unknown;
        }
        let task = x.task;
        let i = task as usize;
        let t = Hour(x.hour);
        match kind {
            StepKind::Calendar => judge_calendar(
                self.fits[i],
                task,
                plan::bounds_at(self.boxes, i),
            ),
            StepKind::Overload => judge_load(self.plan.capacity_of(i), self.load_in(i, t)),
            StepKind::Lower => self.judge_bound(Side::Lower, task, t),
            StepKind::Upper => self.judge_bound(Side::Upper, task, t),
            StepKind::Forward => self.judge_pair(Side::Lower, self.plan.pair_of(i)),
            StepKind::Backward => self.judge_pair(Side::Upper, self.plan.pair_of(i)),
        }
    }
}
