// The search for the first admitted step, in the filter's order.
ghost use Rattle.std.specs.Prelude.{false, ◌≡◌, ℕ, ◌*◌, ◌≤◌, ◌<◌, length, Some};
ghost use Rattle.units.specs.Limits.{most_hours};
ghost use Rattle.plan.specs.Plan.{room_count, task_count};
ghost use Rattle.plan.specs.Lent.{plan_in};
ghost use Rattle.steps.specs.Steps.{kind_in};
ghost use Rattle.steps.specs.Filter.{first_of_kind, first_by, filter_order};
ghost use Rattle.turns.specs.Inner.Kept.{excess_by, calendar_by, admitted_by, is_lower};
ghost use Rattle.turns.specs.Inner.Finding.{admits, Loaded, first_calendar, room_overload, first_overload, first_excess, first_pair};

use crate::side::Side;
use crate::{State, scan};
use calendar::Window;
use steps::{Judged, Step, StepKind};
use units::{Bounds, Height, Hour};

// Whether C is admitted: the task has no valid triple, or a bound changes.
fn is_narrowed(fit: Option<Window>, b: Bounds) -> bool
    ensures { (task : ℕ) → result ≡ admits (calendar_by fit task b) }
{
    fit.is_none_or(|w| w.bounds != b)
}

// Whether a step so judged is admitted.
#[tactic(auto, unfolding(crate::specs::Inner::Finding::admits, crate::specs::Inner::Kept::on_judged))]
fn is_admitted(judged: Judged) -> bool
    ensures { result ≡ admits judged }
{
    matches!(judged, Judged::Impossible | Judged::Moved { .. })
}

// The first O of a room, by hour: the first hour whose load exceeds the capacity.
fn room_overload(room: u16, loads: &[u16], capacity: Height) -> Option<Step>
    requires { length loads.now ≤ most_hours }
    ensures { result ≡ room_overload room loads.now capacity.0 }
{
    let hour = scan::first_above(loads, capacity)?;
    Some(Step {
        kind: StepKind::Overload.letter(),
        task: room,
        hour: hour as u16,
    })
}

// So few hours are sooner asked one by one than passed over.
const FEW: u16 = 16;

// The kinds in the filter's order.
const ORDER: [StepKind; 6] = [
    StepKind::Overload,
    StepKind::Calendar,
    StepKind::Lower,
    StepKind::Upper,
    StepKind::Forward,
    StepKind::Backward,
];

impl State<'_> {
    // The first C, by task.
    fn first_calendar(&self) -> Option<Step>
        ensures { result ≡ first_calendar (plan_in self.now.plan.now) self.now.boxes.now self.now.fits.now }
    {
        // By number: an answer is kept for each of the most tasks, and a box is six numbers.
        for i in 0..self.plan.tasks() {
            if is_narrowed(self.fits[i], plan::bounds_at(self.boxes, i)) {
                return Some(Step {
                    kind: StepKind::Calendar.letter(),
                    task: i as u16,
                    hour: 0,
                });
            }
        }
        None
    }

    // The first O, by room, then hour, by the loads.
    fn first_overload(&self, loads: &[u16]) -> Option<Step>
        requires { let P = plan_in self.now.plan.now in length loads.now ≡ room_count P * P.shifts.hours }
        ensures { result ≡ first_overload (plan_in self.now.plan.now) loads.now }
    {
        let hours = self.plan.shifts.hours.0 as usize;
        for (room, capacity) in self.plan.capacities.iter().enumerate() {
            let in_room = plan::room_part(loads, hours, room);
            if let Some(overload) = room_overload(room as u16, in_room, Height(*capacity)) {
                return Some(overload);
            }
        }
        None
    }

    // The hour up to which the hours from one to before another can be passed over: task i has no excess in them.
    fn pass_hours(&self, w: Window, i: usize, loads: &[u16], from: Hour, end: Hour) -> Hour
        requires loaded { let P = plan_in self.now.plan.now in
            Loaded P.shifts.hours (room_count P) (task_count P) loads.now self.now.fits.now P.heights }
        requires inside { let P = plan_in self.now.plan.now in (i < task_count P) × (end.0 ≤ P.shifts.hours) }
        ensures { let P = plan_in self.now.plan.now in (from.0 ≤ result.0)
            × ((t : ℕ) → from.0 ≤ t → t < result.0 → (t < end.0) × (excess_by P self.now.fits.now w i t ≡ false)) }
    {
        if end.0.saturating_sub(from.0) < FEW {
            return from;
        }
        let hours = self.plan.shifts.hours.0 as usize;
        let mut passed = end.0 as usize;
        for (room, capacity) in self.plan.capacities.iter().enumerate() {
            let height = plan::height_at(self.plan.heights_of(room), i);
            let in_room = plan::room_part(loads, hours, room);
            passed = scan::pass_room(
                in_room,
                w,
                height,
                Height(*capacity),
                from.0 as usize,
                passed,
            );
        }
        Hour(passed as u16)
    }

    // The first L, or the first U, by task, then hour, by the loads. A task with no valid triple is skipped, and so are the hours in which none of its
    // steps can be admitted; of the others the first are passed over, as far as no room has an excess.
    fn first_excess(&self, side: Side, loads: &[u16]) -> Option<Step>
        requires { let P = plan_in self.now.plan.now in Loaded P.shifts.hours (room_count P) (task_count P) loads.now self.now.fits.now P.heights }
        ensures { result ≡ first_excess (plan_in self.now.plan.now) self.now.boxes.now self.now.fits.now (is_lower side) }
    {
        let hours = self.plan.shifts.hours.0 as usize;
        let mut found = None;
        // 01 orders labelled loops over task and hour, left from inside with the first admitted step.
        'outer: for i in 0..self.plan.tasks() {
            let Some(w) = self.fits[i] else {
                continue;
            };
            let b = plan::bounds_at(self.boxes, i);
            let end = side.end_hour(w, b).0.min(self.plan.shifts.hours.0);
            let from = self.pass_hours(w, i, loads, side.first_hour(w, b), Hour(end));
            for t in from.0..end {
                let at = Hour(t);
                let load_in = |room| plan::height_at(loads, room * hours + at.0 as usize);
                if self.has_excess(w, i, at, load_in) {
                    found = Some(Step {
                        kind: side.letter(),
                        task: i as u16,
                        hour: t,
                    });
                    break 'outer;
                }
            }
        }
        found
    }

    // The first F, or the first B, by pair.
    fn first_pair(&self, side: Side) -> Option<Step>
        ensures { result ≡ first_pair (plan_in self.now.plan.now) self.now.boxes.now self.now.fits.now (is_lower side) }
    {
        // By number, which the step names.
        for k in 0..self.plan.pair_count() {
            if is_admitted(self.judge_pair(side, self.plan.pair_of(k))) {
                return Some(Step {
                    kind: side.pair_letter(),
                    task: k as u16,
                    hour: 0,
                });
            }
        }
        None
    }

    // The first admitted step of a kind, by the loads.
    fn first_of_kind(&self, kind: StepKind, loads: &[u16]) -> Option<Step>
        requires { let P = plan_in self.now.plan.now in Loaded P.shifts.hours (room_count P) (task_count P) loads.now self.now.fits.now P.heights }
        ensures { let P = plan_in self.now.plan.now in
            result ≡ first_of_kind P (admitted_by P self.now.boxes.now self.now.fits.now) (kind_in (Some kind)) }
    {
        match kind {
            StepKind::Calendar => self.first_calendar(),
            StepKind::Overload => self.first_overload(loads),
            StepKind::Lower => self.first_excess(Side::Lower, loads),
            StepKind::Upper => self.first_excess(Side::Upper, loads),
            StepKind::Forward => self.first_pair(Side::Lower),
            StepKind::Backward => self.first_pair(Side::Upper),
        }
    }

    // The first admitted step, by the loads.
    pub(crate) fn next_step(&self, loads: &[u16]) -> Option<Step>
        requires { let P = plan_in self.now.plan.now in Loaded P.shifts.hours (room_count P) (task_count P) loads.now self.now.fits.now P.heights }
        ensures { let P = plan_in self.now.plan.now in
            result ≡ first_by P (admitted_by P self.now.boxes.now self.now.fits.now) filter_order }
    {
        for kind in ORDER {
            if let Some(found) = self.first_of_kind(kind, loads) {
                return Some(found);
            }
        }
        None
    }
}
