// The schedule checker: whether a schedule is feasible, and its makespan.
#![tactic(auto)]

ghost use Rattle.std.specs.Prelude.{◌≡◌, ◌+◌, ◌*◌, ◌≤◌, ◌<◌, leb, IfOk, length};
ghost use Rattle.units.specs.Choice.{first_of};
ghost use Rattle.units.specs.Limits.{most_hours};
ghost use Rattle.plan.specs.Refusals.{tested_fault};
ghost use Rattle.plan.specs.Plan.{room_count, task_count, pair_count};
ghost use Rattle.plan.specs.Calendars.{letters_in};
ghost use Rattle.plan.specs.Lent.{packed_in, plan_in};
ghost use Rattle.calendar.specs.Triples.{triple_numbers, end_of, in_bounds};
ghost use Rattle.schedule.specs.Schedule.{triple_at, runs, running, Feasible, makespan};
ghost use Rattle.schedule.specs.Entry.{one_triple_fault, triple_fault, hour_fault, order_fault, check_schedule, check_packed, schedule_answer};
ghost use Rattle.schedule.specs.Decision.{Decides};
ghost use Rattle.plan.specs.Over.{SameOverLetters};
ghost use Rattle.schedule.specs.Inner.Memory.{packed_check_fault};

use calendar::Triple;
use input::Tested;
use plan::{Plan, Refusal};
use stretches::Task;
use units::{Bounds, Duration, Height, Hour};

// A plan that has passed its tests, with a schedule of one triple for each task.
#[derive(Clone, Copy)]
struct Scheduled<'a> {
    tested: Tested<'a>,
    schedule: &'a [u16],
    ghost sized: { length schedule.now ≡ triple_numbers * task_count (plan_in tested.plan.now) },
}

// The triple of task i.
fn triple_at(schedule: &[u16], i: usize) -> Triple
    requires { triple_numbers * i + triple_numbers ≤ length schedule.now }
    ensures { result ≡ triple_at schedule.now i }
{
    let first = Triple::NUMBERS * i;
    Triple {
        start: Hour(schedule[first]),
        elapsed: Duration(schedule[first + 1]),
        overtime: Duration(schedule[first + 2]),
    }
}

// Whether a triple lies in a box: by comparisons, as in `units::is_within`.
#[tactic(auto, unfolding(calendar::specs::Triples::in_bounds, units::specs::Limits::within))]
fn is_in_bounds(b: Bounds, t: Triple) -> bool
    ensures { result ≡ in_bounds b t }
{
    b.earliest <= t.start
        && t.start <= b.latest
        && b.shortest <= t.elapsed
        && t.elapsed <= b.longest
        && b.fewest <= t.overtime
        && t.overtime <= b.most
}

// 14, 15 of one task.
fn test_triple(number: usize, task: &Task, t: Triple) -> Result<(), Refusal>
    requires { length (letters_in task.now.calendar) ≤ most_hours }
    ensures { tested_fault result ≡ one_triple_fault (letters_in task.now.calendar) task.now.work_time.0 task.now.bounds number t }
{
    if !is_in_bounds(task.bounds, t) {
        return Err(Refusal::OutsideBounds(number));
    }
    if !calendar::is_valid(&task.calendar, task.work_time, t) {
        return Err(Refusal::NotValid(number));
    }
    Ok(())
}

// Whether a task with the triple runs in the hour. The time since its start is compared, since an end may not fit.
fn is_running(t: Triple, hour: Hour) -> bool
    ensures { result ≡ runs t hour.0 }
{
    if hour < t.start {
        return false;
    }
    hour.since(t.start) < t.elapsed
}

// Whether a task with the triple ends by the hour. The time since its start is compared, likewise.
fn ends_by(t: Triple, hour: Hour) -> bool
    ensures { result ≡ leb (end_of t) hour.0 }
{
    t.start <= hour && t.elapsed <= hour.since(t.start)
}

impl Scheduled<'_> {
    // Task by task.
    fn test_triples(&self) -> Result<(), Refusal>
        ensures { let P = plan_in self.now.tested.plan.now in
            tested_fault result ≡ first_of (triple_fault P.shifts self.now.tested.boxes.now (triple_at self.now.schedule.now)) (task_count P) }
    {
        // By number: it is the refusal's place, and what a task has lies in several lent slices.
        for i in 0..self.tested.plan.tasks() {
            let task = Task::of_plan(&self.tested.plan.shifts, self.tested.boxes, i);
            test_triple(i, &task, triple_at(self.schedule, i))?;
        }
        Ok(())
    }

    // The heights in a room of the tasks that run in the hour, added.
    fn running_heights(&self, room: usize, hour: Hour) -> Height
        requires { room < room_count (plan_in self.now.tested.plan.now) }
        ensures { result.0 ≡ running (plan_in self.now.tested.plan.now) room (triple_at self.now.schedule.now) hour.0 }
    {
        let heights = self.tested.plan.heights_of(room);
        let mut sum = Height(0);
        for (i, height) in heights.iter().enumerate() {
            if is_running(triple_at(self.schedule, i), hour) {
                sum = sum.plus(Height(*height));
            }
        }
        sum
    }

    // 16, where the tasks that run in the hour take more than a room's capacity.
    fn test_hour(&self, hour: Hour) -> Result<(), Refusal>
        ensures { tested_fault result ≡ hour_fault (plan_in self.now.tested.plan.now) (triple_at self.now.schedule.now) hour.0 }
    {
        for (room, capacity) in self.tested.plan.capacities.iter().enumerate() {
            let running = self.running_heights(room, hour);
            if running > Height(*capacity) {
                return Err(Refusal::OverCapacity(hour.0 as usize));
            }
        }
        Ok(())
    }

    // 16, at the first hour in which the running tasks take more than the capacity of any room.
    fn test_hours(&self) -> Result<(), Refusal>
        ensures { let P = plan_in self.now.tested.plan.now in
            tested_fault result ≡ first_of (hour_fault P (triple_at self.now.schedule.now)) P.shifts.hours }
    {
        // By hour, which is the refusal's place.
        for hour in 0..self.tested.plan.shifts.hours.0 {
            self.test_hour(Hour(hour))?;
        }
        Ok(())
    }

    // 20, at the first pair whose earlier task ends after the later one's start.
    fn test_pairs(&self) -> Result<(), Refusal>
        ensures { let P = plan_in self.now.tested.plan.now in
            tested_fault result ≡ first_of (order_fault P (triple_at self.now.schedule.now)) (pair_count P) }
    {
        // By number: it is the refusal's place, and a pair is two of the lent numbers.
        for k in 0..self.tested.plan.pair_count() {
            let pair = self.tested.plan.pair_of(k);
            let later = triple_at(self.schedule, pair.later as usize);
            if !ends_by(triple_at(self.schedule, pair.earlier as usize), later.start) {
                return Err(Refusal::PairBroken(k));
            }
        }
        Ok(())
    }

    // The largest end.
    fn latest_end(&self) -> Hour
        requires { Feasible (plan_in self.now.tested.plan.now) self.now.tested.boxes.now (triple_at self.now.schedule.now) }
        ensures { result.0 ≡ makespan (plan_in self.now.tested.plan.now) (triple_at self.now.schedule.now) }
    {
        let tasks = self.tested.plan.tasks();
        let mut latest = Hour(0);
        // By number: where a task's triple lies is said in `triple_at` alone.
        for i in 0..tasks {
            let t = triple_at(self.schedule, i);
            latest = latest.max(t.start.plus(t.elapsed));
        }
        latest
    }
}

// The tests of a schedule: 31, the plan's tests, the triples, the hours, the pairs. What has passed them is what was lent.
fn test_schedule<'a>(
    plan: &'a Plan<'a>,
    boxes: &'a [u16],
    schedule: &'a [u16],
) -> Result<Scheduled<'a>, Refusal>
    ensures tests { tested_fault result ≡ packed_check_fault (packed_in plan.now) boxes.now schedule.now }
    ensures lends { IfOk result (λ s. (s.tested.plan.now ≡ plan.now) × (s.tested.boxes.now ≡ boxes.now) × (s.schedule.now ≡ schedule.now)) }
{
    // 31 comes before all others, so that the schedule's length is asked before the plan's tests.
    if !units::is_for_each(schedule.len(), Triple::NUMBERS, plan.tasks()) {
        return Err(Refusal::MemorySize);
    }
    let tested = input::tested_input(plan, boxes)?;
    let scheduled = Scheduled { tested, schedule };
    scheduled.test_triples()?;
    scheduled.test_hours()?;
    scheduled.test_pairs()?;
    Ok(scheduled)
}

// The schedule checker: accepts exactly the feasible schedules of a plan that passes the tests, with the makespan.
pub fn check_schedule(plan: &Plan, boxes: &[u16], schedule: &[u16]) -> Result<Hour, Refusal>
    ensures answer { schedule_answer result ≡ check_packed (packed_in plan.now) boxes.now schedule.now }
    ensures exactly { Decides (packed_in plan.now) boxes.now schedule.now (schedule_answer result) }
    ensures letters { SameOverLetters (packed_in plan.now) (schedule_answer result) (λ Q. check_schedule Q boxes.now schedule.now) }
{
    Ok(test_schedule(plan, boxes, schedule)?.latest_end())
}
