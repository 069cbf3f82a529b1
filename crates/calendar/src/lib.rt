// The calendar rule: the least and greatest start, elapsed time and overtime over the valid triples in a box.
#![tactic(auto)]

mod widen;

ghost use Rattle.std.specs.Prelude.{None, true, false, List, ℕ, ◌≡◌, ◌+◌, ◌-◌, ◌≤◌, ◌<◌, length};
ghost use Rattle.units.specs.Limits.{most_hours};
ghost use Rattle.plan.specs.HourKinds.{is_kind, closed};
ghost use Rattle.plan.specs.Calendars.{letters_in};
ghost use Rattle.calendar.specs.Valid.{overtime_ends};
ghost use Rattle.calendar.specs.Triples.{valid_triple, starting};
ghost use Rattle.calendar.specs.Rule.{witnessed_rule, without_witnesses};
ghost use Rattle.plan.specs.Refusals.{answer_of};
ghost use Rattle.plan.specs.Packed.{packed};
ghost use Rattle.calendar.specs.Entry.{AreLetters, calendar_rule, packed_rule};
ghost use Rattle.stretches.specs.Inner.Stretches.{IsReach, stretch_of, may_end, may_last};
ghost use Rattle.calendar.specs.Inner.Ready.{HasCounts, RuleReady, Reaches};
ghost use Rattle.calendar.specs.Inner.Windows.{Before, with_triples};

use plan::{Calendar, HourKind, Plan, Refusal};
use stretches::{Counts, Reach, Stretch, Task, count_hours};
use units::{Bounds, Duration, Hour};

// 01's (s, e, o): when a task starts, how long it lasts, and its overtime.
#[derive(Clone, Copy)]
pub struct Triple {
    pub start: Hour,
    pub elapsed: Duration,
    pub overtime: Duration,
}

impl Triple {
    // How many numbers a triple has in lent memory: s, e and o.
    pub const NUMBERS: usize = 3;
}

// The bounds of a task's valid triples, with the least and the greatest end.
#[derive(Clone, Copy)]
pub struct Window {
    pub bounds: Bounds,
    pub ect: Hour,
    pub lct: Hour,
}

// For each bound a valid triple that attains it: of several the earliest start, then the shortest elapsed time.
#[derive(Clone, Copy)]
pub struct Witnesses {
    pub earliest: Triple,
    pub latest: Triple,
    pub shortest: Triple,
    pub longest: Triple,
    pub fewest: Triple,
    pub most: Triple,
}

// The bounds of a task's valid triples with their witnesses. A task with no valid triple has none.
#[derive(Clone, Copy)]
pub struct Witnessed {
    pub window: Window,
    pub by: Witnesses,
}

// How many of the first and the last of the e hours from s on are overtime hours; where they are one hour, it counts once.
#[tactic(auto, unfolding(crate::specs::Valid::overtime_ends, plan::specs::HourKinds::is_kind))]
fn overtime_ends(calendar: &Calendar, s: u16, e: u16) -> u16
    requires { (1 ≤ e) × (s + e ≤ length (letters_in calendar.now)) }
    ensures { result ≡ overtime_ends (letters_in calendar.now) s e }
{
    let first = calendar.code_at(s as usize).overtime_count();
    if e == 1 {
        return first;
    }
    first
        + calendar
            .code_at((s as usize) + (e as usize) - 1)
            .overtime_count()
}

// Whether a triple within the calendar is valid, from the counts of its hours.
#[tactic(auto, unfolding(crate::specs::Valid::valid))]
fn is_valid_by(calendar: &Calendar, work_time: Duration, t: Triple, n: Counts) -> bool
    requires { HasCounts (letters_in calendar.now) t n }
    ensures { result ≡ valid_triple (letters_in calendar.now) work_time.0 t }
{
    let s = t.start.0 as usize;
    let e = t.elapsed.0;
    let o = t.overtime.0;
    !HourKind::Closed.is_at(calendar, s)
        && !HourKind::Closed.is_at(calendar, s + (e as usize) - 1)
        && t.overtime <= work_time
        && work_time.0 - o == n.regular
        && o <= n.overtime
        && overtime_ends(calendar, t.start.0, e) <= o
}

// Whether a triple is valid for a task with the calendar and the work time.
pub fn is_valid(calendar: &Calendar, work_time: Duration, t: Triple) -> bool
    requires { length (letters_in calendar.now) ≤ most_hours }
    ensures { result ≡ valid_triple (letters_in calendar.now) work_time.0 t }
{
    let start = t.start;
    let elapsed = t.elapsed;
    if elapsed.0 < 1 {
        return false;
    }
    let end = (start.0 as usize) + (elapsed.0 as usize);
    if calendar.len() < end {
        return false;
    }
    let n = count_hours(calendar, start, elapsed);
    is_valid_by(calendar, work_time, t, n)
}

// The answer so far gets the valid triples in the box that start at the open hour s. They end at the open hours from the shortest stretch to the longest.
// What the second clause promises, the next start asks for.
fn add_start(
    found: &mut Option<Witnessed>,
    task: &Task,
    s: Hour,
    shortest: Stretch,
    longest: Stretch,
)
    requires reaches { Reaches (letters_in task.now.calendar) task.now.work_time.0 task.now.bounds s.0 shortest longest }
    requires open_start { is_kind closed (letters_in task.now.calendar) s.0 ≡ false }
    requires before { Before s.0 (s.0 + shortest.hours.0) (s.0 + longest.last.0) found.old }
    ensures is { found.new ≡ with_triples found.old (starting (letters_in task.now.calendar) task.now.work_time.0 task.now.bounds s.0) }
    ensures after { Before (s.0 + 1) (s.0 + shortest.hours.0) (s.0 + longest.last.0) found.new }
{
    if longest.last < shortest.hours {
        return;
    }
    widen::add_window(found, task.work_time, s, shortest, longest);
}

// Puts the calendar rule's answer, for input that is tested, where there is none yet, from what is sure of the first start's reaches on. A later start
// ends no earlier, so both reaches only go forward; and where a start has no end, nor has any after it. Not inlined, so that the answer lies in memory:
// else it takes the registers that the reaches need.
#[inline(never)]
fn add_from(found: &mut Option<Witnessed>, task: &Task, shortest: Reach, longest: Reach)
    requires ready { RuleReady (letters_in task.now.calendar) task.now.bounds }
    requires nothing { found.old ≡ None }
    requires short { let T = task.now in let cal = letters_in T.calendar in let s = T.bounds.earliest.0 in
        IsReach cal s shortest × ((e : ℕ) → e < shortest.end.0 - s → may_end T.work_time.0 T.bounds (stretch_of cal s e) ≡ false) }
    requires long { let T = task.now in let cal = letters_in T.calendar in let s = T.bounds.earliest.0 in
        IsReach cal s longest × ((e : ℕ) → 1 ≤ e → e ≤ longest.end.0 - s → may_last cal T.work_time.0 T.bounds s e ≡ true) }
    ensures { found.new ≡ witnessed_rule (letters_in task.now.calendar) task.now.work_time.0 task.now.bounds }
{
    let mut shortest = shortest;
    let mut longest = longest;
    // By start: each one's reaches are made of those of the one before. (`..=` would leave the loop at two places.)
    for s in task.bounds.earliest.0..task.bounds.latest.0 + 1 {
        let start = Hour(s);
        let code = task.calendar.code_at(s as usize);
        if !code.is(HourKind::Closed) {
            let Some(at) = task.shortest_from(start, shortest) else {
                return;
            };
            shortest = at;
            task.lengthen(start, code, &mut longest);
            add_start(
                found,
                task,
                start,
                shortest.stretch_from(start),
                longest.stretch_from(start),
            );
        }
        shortest = shortest.without_start(code, start);
        longest = longest.without_start(code, start);
    }
}

// The same from the first start on, whose reaches begin with what needs no test at each hour.
fn add_starts(found: &mut Option<Witnessed>, task: &Task)
    requires ready { RuleReady (letters_in task.now.calendar) task.now.bounds }
    requires nothing { found.old ≡ None }
    ensures { found.new ≡ witnessed_rule (letters_in task.now.calendar) task.now.work_time.0 task.now.bounds }
{
    let first = task.bounds.earliest;
    if task.bounds.latest < first {
        return;
    }
    let shortest = task.worked_on(first, Reach::nothing_at(first));
    let longest = task.lasted_on(first);
    add_from(found, task, shortest, longest);
}

// The calendar rule for input that is tested.
pub fn rule(task: &Task) -> Option<Witnessed>
    requires { RuleReady (letters_in task.now.calendar) task.now.bounds }
    ensures { result ≡ witnessed_rule (letters_in task.now.calendar) task.now.work_time.0 task.now.bounds }
{
    let mut found = None;
    add_starts(&mut found, task);
    found
}

// The answer without its witnesses.
pub fn without_witnesses(found: Option<Witnessed>) -> Option<Window>
    ensures { result ≡ without_witnesses found }
{
    found.map(|f| f.window)
}

// The calendar rule by its tests. A plan would take two calendars' bytes, so that the number of bytes is tested before the plan's own tests.
fn tested_rule(
    hours: Duration,
    calendar: &[u8],
    work_time: Duration,
    b: Bounds,
) -> Result<Option<Witnessed>, Refusal>
    ensures { answer_of result ≡ packed_rule hours.0 calendar.now work_time.0 b }
{
    let hours = Duration::of_plan(hours.0 as usize).ok_or(Refusal::Hours)?;
    if calendar.len() != plan::bytes_of(hours) {
        return Err(Refusal::Calendars);
    }
    let work = [work_time.0];
    let plan = Plan::new(hours.0, &[0], calendar, &[0], &work, &[0], &[]);
    let mut cells = [0; Bounds::NUMBERS];
    plan::put_bounds(&mut cells, 0, b);
    input::test_input(&plan, &cells)?;
    let calendar = Calendar {
        bytes: calendar,
        hours,
    };
    Ok(rule(&Task {
        calendar,
        work_time,
        bounds: b,
    }))
}

// The calendar rule, of a packed calendar of so many hours. Its input is tested as a plan of one calendar and one task. What it answers of a calendar of
// letters, packed, is what it answers of the letters.
#[tactic(auto, using(crate::proofs::Entry::same_rule))]
pub fn calendar_rule(
    hours: Duration,
    calendar: &[u8],
    work_time: Duration,
    b: Bounds,
) -> Result<Option<Witnessed>, Refusal>
    ensures answer { answer_of result ≡ packed_rule hours.0 calendar.now work_time.0 b }
    ensures letters { (cal : List ℕ) → AreLetters cal → hours.0 ≡ length cal → calendar.now ≡ packed cal
        → answer_of result ≡ calendar_rule cal work_time.0 b }
{
    tested_rule(hours, calendar, work_time, b)
}
