// The plan's tests, of what a caller hands in.
#![tactic(auto)]

ghost use Rattle.std.specs.Prelude.{true, ◌≡◌, ◌/◌, ◌≤◌, ◌<◌, IfOk, length};
ghost use Rattle.units.specs.Choice.{first_of};
ghost use Rattle.plan.specs.Packed.{bytes_of, is_packed};
ghost use Rattle.plan.specs.Refusals.{tested_fault};
ghost use Rattle.plan.specs.Plan.{room_count, task_count, pair_count};
ghost use Rattle.plan.specs.Faults.{is_right_size, is_calendars, packing_fault, packed_fault, capacity_fault, counts_fault, height_fault, task_fault, tasks_fault, pairs_fault};
ghost use Rattle.plan.specs.Over.{packed_plan_fault, memory_fault};
ghost use Rattle.plan.specs.Passed.{Passed};
ghost use Rattle.plan.specs.Lent.{plan_in, packed_in};
ghost use Rattle.input.specs.Inner.Ready.{TasksReady, HeightsReady};
ghost use Rattle.input.specs.Inner.Codes.{are_codes, is_clear};

use plan::{Plan, Refusal, bounds_at};
use units::{Bounds, CalendarNumber, Duration, Height, Pair, RoomNumber};

// A plan and its boxes that have passed every test.
#[derive(Clone, Copy)]
pub struct Tested<'a> {
    pub plan: &'a Plan<'a>,
    pub boxes: &'a [u16],
    pub ghost passed: { Passed (plan_in plan.now) boxes.now },
}

// Whether the fields and the boxes number one for each task, the heights in each room, and each pair has two numbers.
#[tactic(auto, unfolding(plan::specs::Faults::one_for_each_task, plan::specs::Faults::is_whole_pairs))]
pub fn is_right_size(plan: &Plan, boxes: &[u16]) -> bool
    ensures { result ≡ is_right_size (plan_in plan.now) boxes.now }
{
    let tasks = plan.tasks();
    plan.shifts.work_times.len() == tasks
        && units::is_for_each(plan.heights.len(), plan.rooms(), tasks)
        && units::is_for_each(boxes.len(), Bounds::NUMBERS, tasks)
        && plan.pairs.len() % Pair::NUMBERS == 0
}

// Whether there are whole calendars of so many bytes, and as many as a plan may have.
#[tactic(auto, unfolding(plan::specs::Faults::is_calendars))]
fn has_calendars(calendars: &[u8], each: usize) -> bool
    requires { 1 ≤ each }
    ensures { result ≡ is_calendars each calendars.now }
{
    calendars.len() % each == 0 && CalendarNumber::is_count(calendars.len() / each)
}

// Whether each of a byte's four codes is that of a kind.
#[tactic(auto, unfolding(crate::specs::Inner::Codes::are_codes))]
fn are_codes(byte: u8) -> bool
    ensures { result ≡ are_codes byte }
{
    byte % 4 <= 2 && byte / 4 % 4 <= 2 && byte / 16 % 4 <= 2 && byte / 64 <= 2
}

// Whether a calendar's last byte has no bit set past its hours.
#[tactic(auto, unfolding(crate::specs::Inner::Codes::is_clear))]
fn is_clear(last: u8, hours: Duration) -> bool
    ensures { result ≡ is_clear hours.0 last }
{
    let held = hours.0 % 4;
    held == 0 || last < 1 << (2 * held)
}

// Whether a calendar of so many hours is packed, byte by byte.
fn is_packed(bytes: &[u8], hours: Duration) -> bool
    requires { (1 ≤ hours.0) × (length bytes.now ≡ bytes_of hours.0) }
    ensures { result ≡ is_packed hours.0 bytes.now }
{
    for byte in bytes {
        if !are_codes(*byte) {
            return false;
        }
    }
    is_clear(bytes[bytes.len() - 1], hours)
}

// 21, at the first calendar that is not packed.
fn test_packing(calendars: &[u8], hours: Duration) -> Result<(), Refusal>
    requires { 1 ≤ hours.0 }
    ensures { tested_fault result ≡ first_of (packing_fault hours.0 calendars.now) (length calendars.now / bytes_of hours.0) }
{
    let each = plan::bytes_of(hours);
    let mut from = 0;
    // By number, which is the refusal's place. Where a calendar begins is found by adding.
    for k in 0..calendars.len() / each {
        if !is_packed(&calendars[from..from + each], hours) {
            return Err(Refusal::Packing(k));
        }
        from += each;
    }
    Ok(())
}

// H and the calendars: 2, 3, 21.
fn test_calendars(calendars: &[u8], hours: Duration) -> Result<(), Refusal>
    ensures { tested_fault result ≡ packed_fault hours.0 calendars.now }
{
    Duration::of_plan(hours.0 as usize).ok_or(Refusal::Hours)?;
    if !has_calendars(calendars, plan::bytes_of(hours)) {
        return Err(Refusal::Calendars);
    }
    test_packing(calendars, hours)
}

// 10, of any room.
fn test_capacities(capacities: &[u16]) -> Result<(), Refusal>
    ensures { tested_fault result ≡ first_of (capacity_fault capacities.now) (length capacities.now) }
{
    for capacity in capacities {
        Height::of_plan(*capacity).ok_or(Refusal::Capacity)?;
    }
    Ok(())
}

// Counts and the capacities: 5, 19, 17, 10.
fn test_counts(plan: &Plan) -> Result<(), Refusal>
    ensures { let P = plan_in plan.now in tested_fault result ≡ counts_fault (task_count P) (pair_count P) P.capacities }
{
    if !Bounds::is_count(plan.tasks()) {
        return Err(Refusal::Tasks);
    }
    if !Pair::is_count(plan.pair_count()) {
        return Err(Refusal::Pairs);
    }
    if !RoomNumber::is_count(plan.rooms()) {
        return Err(Refusal::Rooms);
    }
    test_capacities(plan.capacities)
}

// 8, of a task in any room.
fn test_heights(plan: &Plan, task: usize) -> Result<(), Refusal>
    requires { HeightsReady (plan_in plan.now) task }
    ensures { let P = plan_in plan.now in tested_fault result ≡ first_of (height_fault (task_count P) P.heights task) (room_count P) }
{
    // By number: a room's heights are a part of the lent ones.
    for room in 0..plan.rooms() {
        let height = plan.heights_of(room)[task];
        Height::of_task(height).ok_or(Refusal::TaskHeight(task))?;
    }
    Ok(())
}

// One task: 6, 7, 8, 9.
fn test_task(plan: &Plan, boxes: &[u16], task: usize) -> Result<(), Refusal>
    requires { TasksReady (plan_in plan.now) boxes.now × (task < task_count (plan_in plan.now)) }
    ensures { let P = plan_in plan.now in tested_fault result ≡ task_fault P.shifts (room_count P) P.heights boxes.now task }
{
    let shifts = &plan.shifts;
    let calendars = shifts.calendar_count();
    CalendarNumber::of_plan(shifts.task_calendars[task], calendars).ok_or(Refusal::NoCalendar(
        task,
    ))?;
    let work_time = Duration::of_work(shifts.work_times[task], shifts.hours).ok_or(
        Refusal::WorkTime(task),
    )?;
    test_heights(plan, task)?;
    Bounds::of_task(bounds_at(boxes, task), shifts.hours, work_time).ok_or(Refusal::TaskBounds(
        task,
    ))?;
    Ok(())
}

// Task by task.
fn test_tasks(plan: &Plan, boxes: &[u16]) -> Result<(), Refusal>
    requires { TasksReady (plan_in plan.now) boxes.now }
    ensures { let P = plan_in plan.now in tested_fault result ≡ tasks_fault P.shifts (room_count P) P.heights boxes.now }
{
    // By number: it is a refusal's place, and what a task has lies in several lent slices.
    for task in 0..plan.tasks() {
        test_task(plan, boxes, task)?;
    }
    Ok(())
}

// Pair by pair: 18.
fn test_pairs(plan: &Plan) -> Result<(), Refusal>
    ensures { tested_fault result ≡ pairs_fault (plan_in plan.now) }
{
    // By number: it is the refusal's place, and a pair is two of the lent numbers.
    for k in 0..plan.pair_count() {
        Pair::of_plan(plan.pair_of(k), plan.tasks()).ok_or(Refusal::PairTasks(k))?;
    }
    Ok(())
}

// The plan's tests on memory of the right size: H and the calendars, the counts, then task by task, then pair by pair.
pub fn test_plan(plan: &Plan, boxes: &[u16]) -> Result<(), Refusal>
    requires { is_right_size (plan_in plan.now) boxes.now ≡ true }
    ensures { tested_fault result ≡ packed_plan_fault (packed_in plan.now) boxes.now }
{
    test_calendars(plan.shifts.calendars, plan.shifts.hours)?;
    test_counts(plan)?;
    test_tasks(plan, boxes)?;
    test_pairs(plan)
}

// The plan's tests: 31 before all others.
pub fn test_input(plan: &Plan, boxes: &[u16]) -> Result<(), Refusal>
    ensures { tested_fault result ≡ memory_fault (is_right_size (plan_in plan.now) boxes.now) (packed_in plan.now) boxes.now }
{
    if !is_right_size(plan, boxes) {
        return Err(Refusal::MemorySize);
    }
    test_plan(plan, boxes)
}

// What has passed the plan's tests, 31 before all others, is what was lent.
pub fn tested_input<'a>(plan: &'a Plan<'a>, boxes: &'a [u16]) -> Result<Tested<'a>, Refusal>
    ensures tests { tested_fault result ≡ memory_fault (is_right_size (plan_in plan.now) boxes.now) (packed_in plan.now) boxes.now }
    ensures lends { IfOk result (λ t. (t.plan.now ≡ plan.now) × (t.boxes.now ≡ boxes.now)) }
{
    test_input(plan, boxes)?;
    Ok(Tested { plan, boxes })
}
