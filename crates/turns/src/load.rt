// The load of an hour, from the answers of the calendar rule that are kept: added up for one hour, or made for all once and mended where a task's answer
// becomes another.
ghost use Rattle.std.specs.Prelude.{◌≡◌, ℕ, ◌+◌, ◌*◌, ◌≤◌, ◌<◌, length, get_or, set, Some};
ghost use Rattle.plan.specs.Plan.{room_count, task_count, heights_of};
ghost use Rattle.plan.specs.Lent.{plan_in};
ghost use Rattle.steps.specs.Load.{must_run};
ghost use Rattle.turns.specs.Inner.Kept.{load_of};
ghost use Rattle.turns.specs.Inner.Finding.{part_at, share_in, Loaded};
ghost use Rattle.turns.specs.Inner.Ready.{RoomReady, RoomsReady};

use crate::{Fits, State};
use calendar::Window;
use plan::Plan;
use units::{Height, Hour};

// Whether the compulsory part of a task with the window holds the hour.
#[tactic(auto, unfolding(steps::specs::Load::must_run))]
pub fn must_run(w: Window, t: Hour) -> bool
    ensures { result ≡ must_run (Some w) t.0 }
{
    w.bounds.latest <= t && t < w.ect
}

// The heights in a room of the tasks whose compulsory part holds the hour, added. A task with no valid triple has none.
fn load_at(fits: &Fits, heights: &[u16], t: Hour) -> Height
    requires { RoomReady heights.now }
    ensures { result.0 ≡ load_of fits.now heights.now t.0 }
{
    let mut sum = Height(0);
    for (fit, height) in fits.iter().zip(heights) {
        if fit.is_some_and(|w| must_run(w, t)) {
            sum = sum.plus(Height(*height));
        }
    }
    sum
}

// The hours of a compulsory part, from the first up to before the end.
#[derive(Clone, Copy, PartialEq, Eq)]
pub struct Part {
    from: Hour,
    end: Hour,
}

// The compulsory part of a task with the answer. All that have no hour are the same part.
fn part_of(fit: Option<Window>) -> Part
    ensures { (height t : ℕ) → share_in result height t ≡ part_at fit height t }
{
    let none = Part {
        from: Hour(0),
        end: Hour(0),
    };
    let Some(w) = fit else {
        return none;
    };
    if w.ect <= w.bounds.latest {
        return none;
    }
    Part {
        from: w.bounds.latest,
        end: w.ect,
    }
}

// In the hours of the part, a height that is counted in a room's loads becomes another; 0 stands for none.
fn change_part(loads: &mut [u16], part: Part, was: Height, is: Height)
    requires { (t : ℕ) → t < length loads.old → (share_in part was.0 t ≤ get_or loads.old t 0)
        × (get_or loads.old t 0 + share_in part is.0 t < 65536 + share_in part was.0 t) }
    ensures { (length loads.new ≡ length loads.old)
        × ((t : ℕ) → t < length loads.old → get_or loads.new t 0 + share_in part was.0 t ≡ get_or loads.old t 0 + share_in part is.0 t) }
{
    let end = loads.len().min(part.end.0 as usize);
    // Where the part begins past the end it has no such hour, and no slice would begin there.
    let from = end.min(part.from.0 as usize);
    for load in &mut loads[from..end] {
        *load = *load - was.0 + is.0;
    }
}

// Each of a room's numbers, which are 0, becomes the load of its hour. A task with no valid triple has no part in it.
fn fill_room(loads: &mut [u16], fits: &Fits, heights: &[u16])
    requires { ((t : ℕ) → t < length loads.old → get_or loads.old t 0 ≡ 0) × RoomReady heights.now }
    ensures { (length loads.new ≡ length loads.old)
        × ((t : ℕ) → t < length loads.old → get_or loads.new t 0 ≡ load_of fits.now heights.now t) }
{
    for (fit, height) in fits.iter().zip(heights) {
        change_part(loads, part_of(*fit), Height(0), Height(*height));
    }
}

// A task's compulsory part becomes another in a room's loads.
fn mend_room(loads: &mut [u16], was: Part, is: Part, height: Height)
    requires { (t : ℕ) → t < length loads.old → (share_in was height.0 t ≤ get_or loads.old t 0)
        × (get_or loads.old t 0 + share_in is height.0 t < 65536 + share_in was height.0 t) }
    ensures { (length loads.new ≡ length loads.old)
        × ((t : ℕ) → t < length loads.old → get_or loads.new t 0 + share_in was height.0 t ≡ get_or loads.old t 0 + share_in is height.0 t) }
{
    change_part(loads, was, height, Height(0));
    change_part(loads, is, Height(0), height);
}

// The numbers, which are 0, become the loads of the hours, room by room. That they are 0 is said in each contract on the way: no type of a slice
// says it, and the memory is of one of two sizes.
pub fn fill_loads(plan: &Plan, fits: &Fits, loads: &mut [u16])
    requires ready { let P = plan_in plan.now in RoomsReady (room_count P) (task_count P) P.heights }
    requires zero { let P = plan_in plan.now in
        (length loads.old ≡ room_count P * P.shifts.hours) × ((k : ℕ) → k < length loads.old → get_or loads.old k 0 ≡ 0) }
    ensures { let P = plan_in plan.now in Loaded P.shifts.hours (room_count P) (task_count P) loads.new fits.now P.heights }
{
    let hours = plan.shifts.hours.0 as usize;
    // By number: `chunks_mut` would need an H above 0, which no contract of a caller says.
    for room in 0..plan.rooms() {
        let from = room * hours;
        fill_room(&mut loads[from..from + hours], fits, plan.heights_of(room));
    }
}

// The loads, made while the answer of task i was another, become those of the answers as they are: in each room its height is taken off in the hours
// of its old compulsory part, and added in those of the new one.
pub fn mend_loads(plan: &Plan, fits: &Fits, loads: &mut [u16], i: usize, was: Option<Window>)
    requires ready { let P = plan_in plan.now in RoomsReady (room_count P) (task_count P) P.heights }
    requires task { i < task_count (plan_in plan.now) }
    requires loaded { let P = plan_in plan.now in
        Loaded P.shifts.hours (room_count P) (task_count P) loads.old (set fits.now i was) P.heights }
    ensures { let P = plan_in plan.now in Loaded P.shifts.hours (room_count P) (task_count P) loads.new fits.now P.heights }
{
    let before = part_of(was);
    let after = part_of(fits[i]);
    if before == after {
        return;
    }
    let hours = plan.shifts.hours.0 as usize;
    // By number, as above.
    for room in 0..plan.rooms() {
        let from = room * hours;
        let height = plan::height_at(plan.heights_of(room), i);
        mend_room(&mut loads[from..from + hours], before, after, height);
    }
}

impl State<'_> {
    // The load of a room in the hour.
    pub(crate) fn load_in(&self, room: usize, t: Hour) -> Height
        requires { room < room_count (plan_in self.now.plan.now) }
        ensures { result.0 ≡ load_of self.now.fits.now (heights_of (plan_in self.now.plan.now) room) t.0 }
    {
        load_at(self.fits, self.plan.heights_of(room), t)
    }
}
