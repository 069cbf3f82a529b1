// 01's worked weeks without a star, weeks of two rooms and of pairs, a year, calendars that are packed wrongly, logs of step records, plans written
// back as text, and what reading leaves in memory: each is run, and its answer printed on a line.
#![tactic(auto)]

ghost use Rattle.std.specs.Prelude.{◌≡◌, ◌≤◌, IfOk, length};
ghost use Rattle.plan_lines.specs.Pieces.{IsReady};

use calendar::Witnessed;
use plan::{Fault, Plan, Refusal};
use plan_lines::Reading;
use plan_text::{MOST_BOUNDS, MOST_HEIGHTS, MOST_PACKED, MOST_PAIRED, PlanMemory};
use std::fs::File;
use std::io;
use std::io::Read;
use std::rt::Files;
use steps::{Accepted, Filtered, Step};
use text::fields::end_of;
use units::{Bounds, Duration, Hour, MOST_ROOMS};

fn report_refusal(rt: &impl Print, refusal: Refusal) -> io::Result<()> {
    let Fault { number, place } = Fault::from(refusal);
    println!(rt; "refused\t{number}\t{place}")
}

fn report(rt: &impl Print, answer: Result<Hour, Refusal>) -> io::Result<()> {
    match answer {
        Err(refusal) => report_refusal(rt, refusal),
        Ok(Hour(end)) => println!(rt; "feasible\t{end}"),
    }
}

// The two tasks of these weeks: each of calendar 0, two hours of work and one rack, in each room if there are two.
static TASK_CALENDARS: [u16; 2] = [0, 0];

static WORK_TIMES: [u16; 2] = [2, 2];

static HEIGHTS: [u16; 2] = [1, 1];

static HEIGHTS_IN_TWO_ROOMS: [u16; 4] = [1, 1, 1, 1];

// Task 0 is to end before task 1 starts.
static PAIRS: [u16; 2] = [0, 1];

// Packed calendars, four hours a byte, the first in its lowest bits: 0 closed, 1 regular, 2 overtime. Regular hours, from 3 to 6.
static THREE_HOURS: [u8; 1] = [1 + 4 + 16];

static FOUR_HOURS: [u8; 1] = [1 + 4 + 16 + 64];

static SIX_HOURS: [u8; 2] = [1 + 4 + 16 + 64, 1 + 4];

// `rcrrrr`, the printed week's, and `rrcrrr`.
static SECOND_CLOSED: [u8; 2] = [1 + 16 + 64, 1 + 4];

static THIRD_CLOSED: [u8; 2] = [1 + 4 + 64, 1 + 4];

// A week of these tasks, the calendar packed.
fn week<'a>(
    hours: u16,
    capacities: &'a [u16],
    calendar: &'a [u8],
    heights: &'a [u16],
    pairs: &'a [u16],
) -> Plan<'a> {
    Plan::new(
        hours,
        capacities,
        calendar,
        &TASK_CALENDARS,
        &WORK_TIMES,
        heights,
        pairs,
    )
}

// The printed week's opening boxes.
const OPENING: [u16; 12] = [0, 3, 2, 3, 0, 0, 0, 2, 2, 3, 0, 0];

// A schedule of the printed week, with pairs of its tasks, held against its opening boxes.
fn printed_week(pairs: &[u16], schedule: &[u16]) -> Result<Hour, Refusal> {
    let plan = week(6, &[1], &SECOND_CLOSED, &HEIGHTS, pairs);
    schedule::check_schedule(&plan, &OPENING, schedule)
}

fn feasible_schedule(rt: &impl Print) -> io::Result<()> {
    let schedule: [u16; 6] = [3, 2, 0, 0, 3, 0];
    report(rt, printed_week(&[], &schedule))
}

// Task 1 ends as task 0 starts: that keeps the pair of the two one way round, and breaks it the other.
fn schedules_with_pairs(rt: &impl Print) -> io::Result<()> {
    let schedule: [u16; 6] = [3, 2, 0, 0, 3, 0];
    report(rt, printed_week(&[1, 0], &schedule))?;
    report(rt, printed_week(&[1, 0, 0, 1], &schedule))
}

// Both tasks run in hour 2; 16 comes before the pair that is broken too.
fn schedule_over_capacity(rt: &impl Print) -> io::Result<()> {
    let schedule: [u16; 6] = [2, 2, 0, 0, 3, 0];
    report(rt, printed_week(&PAIRS, &schedule))
}

// Task 0 would end on a closed hour.
fn schedule_that_ends_closed(rt: &impl Print) -> io::Result<()> {
    let schedule: [u16; 6] = [0, 2, 0, 0, 3, 0];
    report(rt, printed_week(&[], &schedule))
}

// Both tasks run in hour 1: the first room has racks for both, the second has not.
fn schedule_over_the_second_capacity(rt: &impl Print) -> io::Result<()> {
    let plan = week(3, &[2, 1], &THREE_HOURS, &HEIGHTS_IN_TWO_ROOMS, &[]);
    let boxes: [u16; 12] = [0, 1, 2, 2, 0, 0, 0, 1, 2, 2, 0, 0];
    let schedule: [u16; 6] = [0, 2, 0, 1, 2, 0];
    report(rt, schedule::check_schedule(&plan, &boxes, &schedule))
}

// The printed week over other bytes for its calendar.
fn packed_week(rt: &impl Print, calendar: &[u8]) -> io::Result<()> {
    let plan = week(6, &[1], calendar, &HEIGHTS, &[]);
    let schedule: [u16; 6] = [3, 2, 0, 0, 3, 0];
    report(rt, schedule::check_schedule(&plan, &OPENING, &schedule))
}

// The calendars of the printed week in memory: as they are, with another calendar after them, a byte too few or too many, a 3 in the first hour, the
// last hour or the second calendar, and a bit past the last hour; then two faults, of which 3 comes before 21.
fn packed_calendars(rt: &impl Print) -> io::Result<()> {
    packed_week(rt, &[81, 5])?;
    packed_week(rt, &[81, 5, 85, 5])?;
    packed_week(rt, &[81])?;
    packed_week(rt, &[81, 5, 85])?;
    packed_week(rt, &[81 + 2, 5])?;
    packed_week(rt, &[81, 5 + 8])?;
    packed_week(rt, &[81, 5, 85, 5 + 8])?;
    packed_week(rt, &[81, 5 + 16])?;
    packed_week(rt, &[81, 5, 85, 5 + 128])?;
    packed_week(rt, &[81 + 2, 5, 85])
}

// 65 tasks of an hour on a calendar: 21 comes before 5.
fn too_many_tasks(rt: &impl Print, calendar: &[u8]) -> io::Result<()> {
    let plan = Plan::new(6, &[1], calendar, &[0; 65], &[1; 65], &[1; 65], &[]);
    report(rt, schedule::check_schedule(&plan, &[0; 390], &[0; 195]))
}

fn report_rule(rt: &impl Print, answer: Result<Option<Witnessed>, Refusal>) -> io::Result<()> {
    match answer {
        Err(refusal) => report_refusal(rt, refusal),
        Ok(None) => println!(rt; "no triple"),
        Ok(Some(found)) => print_boxes(rt, &plan::box_cells(found.window.bounds)),
    }
}

// The calendar rule for so many hours of work, in task 0's box of the printed week or with its earliest start past its latest.
fn rule_of(
    rt: &impl Print,
    hours: u16,
    calendar: &[u8],
    work: u16,
    earliest: u16,
) -> io::Result<()> {
    let bounds = plan::bounds_at(&[earliest, 3, 2, 3, 0, 0], 0);
    report_rule(
        rt,
        calendar::calendar_rule(Duration(hours), calendar, Duration(work), bounds),
    )
}

// The rule is given H: 2, then 3 for another number of bytes (those of two calendars too), 21, 7, 9.
fn rules(rt: &impl Print) -> io::Result<()> {
    rule_of(rt, 6, &[81, 5], 2, 0)?;
    rule_of(rt, 8785, &[81], 7, 4)?;
    rule_of(rt, 6, &[81 + 2], 7, 4)?;
    rule_of(rt, 6, &[81, 5, 81, 5], 7, 4)?;
    rule_of(rt, 6, &[81 + 2, 5], 7, 4)?;
    rule_of(rt, 6, &[81, 5 + 64], 7, 4)?;
    rule_of(rt, 6, &[81, 5], 7, 4)?;
    rule_of(rt, 6, &[81, 5], 2, 4)
}

// The bytes that a file is asked for at most.
const PIECE: usize = 4096;

// More reads than a text of data/ takes.
const READS: usize = 1_000_000;

// Prints the name of a plan text of data/, and reads it in pieces of so many bytes.
fn read_data(
    rt: &(impl Files + Print),
    name: &str,
    size: usize,
    reading: &mut Reading,
) -> io::Result<()>
    requires { (size ≤ 4096) × IsReady reading.old }
    ensures { IfOk result (λ _. IsReady reading.new) }
{
    println!(rt; "{name}")?;
    let mut file = File::open(rt, name)?;
    let mut piece = [0u8; PIECE];
    for _ in 0..READS {
        let n = file.read(&mut piece[..size])?;
        if n == 0 {
            return Ok(());
        }
        reading.take(&piece[..n]);
    }
    Ok(())
}

// What the program prints for a plan text.
fn print_listing(rt: &(impl Files + Print), name: &str) -> io::Result<()> {
    println!(rt; "{name}")?;
    let mut out = [0u8; listing::ROOM];
    let mut file = File::open(rt, name)?;
    let k = text_listing::list_input(&mut file, &mut out)?;
    rt.write_all(&out[..k])
}

// What a plan and a line may have at most, and one more. Of a year the last six hours are the printed week.
const LIMITS: [&str; 12] = [
    "no-tasks.plan",
    "hours-1008.plan",
    "hours-1009.plan",
    "hours-8784.plan",
    "hours-8785.plan",
    "year.plan",
    "line-8800.plan",
    "line-8801.plan",
    "tasks-64.plan",
    "tasks-65.plan",
    "pairs-256.plan",
    "pairs-257.plan",
];

// 01's weeks and its traps, overtime asked for and not, and an hour that is overfull before C moves a bound.
const WEEKS: [&str; 9] = [
    "printed-week.plan",
    "height-above-capacity.plan",
    "calendar-a.plan",
    "rests-before-closing.plan",
    "one-hour-of-overtime.plan",
    "overtime-not-asked-for.plan",
    "two-hours-of-overtime.plan",
    "own-part-is-no-excess.plan",
    "overload-before-calendar.plan",
];

// Every refusal of a plan text but 5 and 19, which are among the limits.
const REFUSALS: [&str; 16] = [
    "refused-1.plan",
    "refused-1-no-lf.plan",
    "refused-2.plan",
    "refused-3.plan",
    "refused-4.plan",
    "refused-6.plan",
    "refused-7.plan",
    "refused-8.plan",
    "refused-9.plan",
    "refused-10.plan",
    "refused-17.plan",
    "refused-17-no-room.plan",
    "refused-1-heights.plan",
    "refused-18.plan",
    "refused-18-one-task.plan",
    "refused-1-task-after-pair.plan",
];

// Weeks of two rooms, one of 40 tasks, and weeks with pairs: on an open calendar, around a closed hour, and in a ring.
const LARGER_WEEKS: [&str; 6] = [
    "two-rooms.plan",
    "overload-in-the-second-room.plan",
    "bakery-week.plan",
    "one-after-another.plan",
    "after-a-closed-hour.plan",
    "pairs-in-a-ring.plan",
];

fn print_listings(rt: &(impl Files + Print), names: &[&str]) -> io::Result<()> {
    for name in names {
        print_listing(rt, name)?;
    }
    Ok(())
}

fn print_step(rt: &impl Print, x: Step) -> io::Result<()> {
    let Step { kind, task, hour } = x;
    let letter = kind as char;
    println!(rt; "{letter}\t{task}\t{hour}")
}

fn print_boxes(rt: &impl Print, boxes: &[u16]) -> io::Result<()> {
    print!(rt; "boxes")?;
    for bound in boxes {
        print!(rt; "\t{bound}")?;
    }
    println!(rt;)
}

fn print_count(rt: &impl Print, word: &[u8], count: usize) -> io::Result<()> {
    rt.write_all(word)?;
    println!(rt; "\t{count}")
}

fn report_filtered(rt: &impl Print, answer: Result<Filtered, Refusal>) -> io::Result<()> {
    match answer {
        Err(refusal) => report_refusal(rt, refusal),
        Ok(filtered) => print_count(rt, listing::ending_word(filtered.ending), filtered.count),
    }
}

fn report_checked(rt: &impl Print, answer: Result<Accepted, Refusal>) -> io::Result<()> {
    match answer {
        Err(refusal) => report_refusal(rt, refusal),
        Ok(Accepted { steps, impossible }) => {
            let ending = if impossible { "\timpossible" } else { "" };
            println!(rt; "accepted\t{steps}{ending}")
        }
    }
}

// The cells of a log here that is to hold every step.
const CELLS: usize = 2048;

// An empty cell of a log.
const NO_STEP: Step = Step {
    kind: 0,
    task: 0,
    hour: 0,
};

fn step(kind: u8, task: u16, hour: u16) -> Step {
    Step { kind, task, hour }
}

// How many steps stand before the first empty cell: no step has the kind 0.
fn step_count(log: &[Step]) -> usize
    ensures { result ≤ length log.now }
{
    log.iter().position(|x| x.kind == 0).unwrap_or(log.len())
}

fn print_steps(rt: &impl Print, steps: &[Step]) -> io::Result<()> {
    for x in steps {
        print_step(rt, *x)?;
    }
    Ok(())
}

// The filter of crate `step_log` on a week, with an empty log lent as its room: prints the answer and the boxes left.
fn filter_week(
    rt: &impl Print,
    plan: &Plan,
    opening: [u16; 12],
    log: &mut [Step],
) -> io::Result<()> {
    let mut boxes = opening;
    let answer = step_log::filter(plan, &mut boxes, log);
    report_filtered(rt, answer)?;
    print_boxes(rt, &boxes)
}

// The log checker of crate `step_log` on a log of a week: prints the answer and the boxes left.
fn check_week(rt: &impl Print, plan: &Plan, opening: [u16; 12], log: &[Step]) -> io::Result<()> {
    let mut boxes = opening;
    let checked = step_log::check_log(plan, &mut boxes, log);
    report_checked(rt, checked)?;
    print_boxes(rt, &boxes)
}

// A week with an empty log lent as its room, and the log printed, and checked from the opening boxes.
fn week_log(rt: &impl Print, plan: &Plan, opening: [u16; 12], log: &mut [Step]) -> io::Result<()> {
    filter_week(rt, plan, opening, log)?;
    let steps = &log[..step_count(log)];
    print_steps(rt, steps)?;
    check_week(rt, plan, opening, steps)
}

// The printed week, with room for every step and for two.
fn printed_week_logs(rt: &impl Print) -> io::Result<()> {
    let plan = week(6, &[1], &SECOND_CLOSED, &HEIGHTS, &[]);
    week_log(rt, &plan, OPENING, &mut [NO_STEP; CELLS])?;
    week_log(rt, &plan, OPENING, &mut [NO_STEP; 2])
}

// Both tasks must run in hour 1, which has racks for one: O says so before C moves a bound, with room for every step and for one. C of both tasks
// and then O, the log in the order before W-207, is accepted as well.
fn overload_before_calendar_logs(rt: &impl Print) -> io::Result<()> {
    let opening: [u16; 12] = [0, 1, 2, 3, 0, 0, 0, 1, 2, 3, 0, 0];
    let plan = week(3, &[1], &THREE_HOURS, &HEIGHTS, &[]);
    week_log(rt, &plan, opening, &mut [NO_STEP; CELLS])?;
    week_log(rt, &plan, opening, &mut [NO_STEP; 1])?;
    let log = [step(b'C', 0, 0), step(b'C', 1, 0), step(b'O', 0, 1)];
    check_week(rt, &plan, opening, &log)
}

// Weeks of two rooms: task 0 fills the second in hours 0 and 1, so that task 1 starts in hour 2; both must run in hour 1.
fn two_rooms_logs(rt: &impl Print) -> io::Result<()> {
    let capacities: [u16; 2] = [2, 1];
    let later: [u16; 12] = [0, 0, 2, 2, 0, 0, 0, 3, 2, 4, 0, 0];
    let four_hours = week(4, &capacities, &FOUR_HOURS, &HEIGHTS_IN_TWO_ROOMS, &[]);
    week_log(rt, &four_hours, later, &mut [NO_STEP; CELLS])?;
    let together: [u16; 12] = [0, 1, 2, 2, 0, 0, 0, 1, 2, 2, 0, 0];
    let three_hours = week(3, &capacities, &THREE_HOURS, &HEIGHTS_IN_TWO_ROOMS, &[]);
    week_log(rt, &three_hours, together, &mut [NO_STEP; CELLS])
}

// Weeks with a pair: on regular hours, and with a rest through hour 2, which moves a bound of each task once more.
fn pairs_logs(rt: &impl Print) -> io::Result<()> {
    let opening: [u16; 12] = [0, 5, 2, 6, 0, 0, 0, 5, 2, 6, 0, 0];
    let regular = week(6, &[2], &SIX_HOURS, &HEIGHTS, &PAIRS);
    week_log(rt, &regular, opening, &mut [NO_STEP; CELLS])?;
    let resting = week(6, &[2], &THIRD_CLOSED, &HEIGHTS, &PAIRS);
    week_log(rt, &resting, opening, &mut [NO_STEP; CELLS])
}

// 130 regular hours without capacity: the filter raises the earliest start of task 0 hour by hour, until its step 127, the last of the log's second
// part of 64, says impossible. The log is checked as it is, and with a record after that step.
fn log_of_two_parts(rt: &impl Print) -> io::Result<()> {
    let mut calendar = [85u8; 33];
    calendar[32] = 5;
    let opening: [u16; 12] = [0, 128, 2, 2, 0, 0, 0, 128, 2, 2, 0, 0];
    let plan = week(130, &[0], &calendar, &HEIGHTS, &[]);
    let mut log = [NO_STEP; CELLS];
    filter_week(rt, &plan, opening, &mut log)?;
    check_week(rt, &plan, opening, &log[..step_count(&log)])?;
    log[128] = log[0];
    check_week(rt, &plan, opening, &log[..step_count(&log)])
}

fn report_writing(rt: &impl Print, answer: Result<usize, Refusal>) -> io::Result<()> {
    match answer {
        Err(refusal) => report_refusal(rt, refusal),
        Ok(length) => print_count(rt, b"written", length),
    }
}

// The plan of a text that was read, written back.
fn rewrite(reading: &Reading, out: &mut [u8]) -> Result<usize, Refusal>
    requires { IsReady reading.now }
{
    let mut memory = PlanMemory::EMPTY;
    let mut boxes = [0u16; MOST_BOUNDS];
    let read = memory.finish(reading, &mut boxes)?;
    plan_writing::write_plan(
        &memory.plan(read),
        &boxes[..Bounds::NUMBERS * read.tasks],
        out,
    )
}

// One byte more than the greatest text has.
const BYTES: usize = 149_067;

// What marks the bytes that writing left as they were: no plan text has it.
const MARK: u8 = b'.';

fn marks() -> [u8; BYTES]
    ensures { length result ≡ 149067 }
{
    [MARK; BYTES]
}

// A plan text of data/ read in pieces, and written back into the memory lent: prints the answer, and says how many bytes were written.
fn rewrite_data(
    rt: &(impl Files + Print),
    name: &str,
    size: usize,
    out: &mut [u8],
) -> io::Result<usize>
    requires { size ≤ 4096 }
    ensures { IfOk result (λ end. end ≤ length out.new) }
{
    let mut reading = Reading::begin();
    read_data(rt, name, size, &mut reading)?;
    let answer = rewrite(&reading, out);
    report_writing(rt, answer)?;
    Ok(end_of(out, MARK))
}

// A plan text that arrives in pieces, written back: the text.
fn print_from_pieces(rt: &(impl Files + Print), name: &str, size: usize) -> io::Result<()>
    requires { size ≤ 4096 }
{
    let mut out = marks();
    let end = rewrite_data(rt, name, size, &mut out)?;
    rt.write_all(&out[..end])
}

fn print_rewritten(rt: &(impl Files + Print), name: &str) -> io::Result<()> {
    print_from_pieces(rt, name, PIECE)
}

// A plan text written back into so many bytes: how many were written.
fn count_rewritten(
    rt: &(impl Files + Print),
    name: &str,
    size: usize,
    room: usize,
) -> io::Result<()>
    requires { (size ≤ 4096) × (room ≤ 149067) }
{
    let mut out = marks();
    let end = rewrite_data(rt, name, size, &mut out[..room])?;
    print_count(rt, b"bytes", end)
}

// Plans written back: with bounds and without, of two rooms, without tasks, with pairs, one that is refused, the printed week of 66 bytes, and the
// longest text.
fn print_rewritings(rt: &(impl Files + Print)) -> io::Result<()> {
    print_rewritten(rt, "printed-week.plan")?;
    print_rewritten(rt, "overtime-not-asked-for.plan")?;
    print_rewritten(rt, "two-rooms.plan")?;
    print_rewritten(rt, "no-tasks.plan")?;
    print_rewritten(rt, "bakery-week.plan")?;
    print_rewritten(rt, "pairs-in-order.plan")?;
    print_rewritten(rt, "refused-9.plan")?;
    count_rewritten(rt, "printed-week.plan", PIECE, 0)?;
    count_rewritten(rt, "printed-week.plan", PIECE, 65)?;
    count_rewritten(rt, "printed-week.plan", PIECE, 66)?;
    count_rewritten(rt, "printed-week.plan", PIECE, 67)?;
    count_rewritten(rt, "longest.plan", PIECE, 149_065)?;
    count_rewritten(rt, "longest.plan", PIECE, 149_066)?;
    count_rewritten(rt, "longest.plan", PIECE, 149_067)
}

// Texts in pieces of 1 byte, 7 and 4,096: accepted, malformed in the middle and at the end, refused, and the greatest.
fn print_pieces(rt: &(impl Files + Print)) -> io::Result<()> {
    for size in [1, 7, PIECE] {
        print_from_pieces(rt, "printed-week.plan", size)?;
        print_from_pieces(rt, "refused-1-task-after-pair.plan", size)?;
        print_from_pieces(rt, "refused-1-no-lf.plan", size)?;
        print_from_pieces(rt, "line-8800.plan", size)?;
        print_from_pieces(rt, "line-8801.plan", size)?;
        count_rewritten(rt, "longest.plan", size, 149_066)?;
    }
    Ok(())
}

// What memory holds after a call that met 7 in each cell.
fn report_memory(rt: &impl Print, numbers: &[u16], bytes: &[u8]) -> io::Result<()> {
    let touched = numbers.iter().position(|n| *n != 7).is_some()
        || bytes.iter().position(|n| *n != 7).is_some();
    let cleared = numbers.iter().position(|n| *n != 0).is_none()
        && bytes.iter().position(|n| *n != 0).is_none();
    let state = if !touched {
        "as it was"
    } else if cleared {
        "all 0"
    } else {
        "the plan"
    };
    println!(rt; "memory\t{state}")
}

// A plan text of data/ read into memory with so many bytes for the calendars: the answer, and what the calendars and the boxes hold after it.
fn read_into(rt: &(impl Files + Print), name: &str, calendars: &mut [u8]) -> io::Result<()> {
    let mut reading = Reading::begin();
    read_data(rt, name, PIECE, &mut reading)?;
    let mut capacities = [7u16; MOST_ROOMS];
    let mut task_calendars = [7u16; Bounds::MOST];
    let mut work_times = [7u16; Bounds::MOST];
    let mut heights = [7u16; MOST_HEIGHTS];
    let mut pairs = [7u16; MOST_PAIRED];
    let mut boxes = [7u16; MOST_BOUNDS];
    let answer = plan_text::finish_plan(
        &reading,
        &mut capacities,
        calendars,
        &mut task_calendars,
        &mut work_times,
        &mut heights,
        &mut pairs,
        &mut boxes,
    );
    match answer {
        Err(refusal) => report_refusal(rt, refusal)?,
        Ok(read) => print_count(rt, b"read", read.tasks)?,
    }
    report_memory(rt, &boxes, calendars)
}

// What reading leaves: a refused text all 0, in memory that is too short too where it is malformed, and in surplus memory; 31 all as it was.
fn memory_after_reading(rt: &(impl Files + Print)) -> io::Result<()> {
    read_into(rt, "printed-week.plan", &mut [7; MOST_PACKED])?;
    read_into(rt, "printed-week.plan", &mut [7; MOST_PACKED - 1])?;
    read_into(rt, "hours-8785.plan", &mut [7; MOST_PACKED])?;
    read_into(rt, "hours-8785.plan", &mut [7; MOST_PACKED - 1])?;
    read_into(rt, "refused-1.plan", &mut [7; MOST_PACKED])?;
    read_into(rt, "refused-1.plan", &mut [7; MOST_PACKED - 1])?;
    read_into(rt, "refused-18.plan", &mut [7; MOST_PACKED + 1])
}

fn main(rt: HostRuntime) -> io::Result<()> {
    feasible_schedule(&rt)?;
    schedule_over_capacity(&rt)?;
    schedule_that_ends_closed(&rt)?;
    schedule_over_the_second_capacity(&rt)?;
    schedules_with_pairs(&rt)?;
    packed_calendars(&rt)?;
    too_many_tasks(&rt, &[81 + 2, 5])?;
    too_many_tasks(&rt, &[81, 5])?;
    rules(&rt)?;
    print_listings(&rt, &LIMITS)?;
    print_listings(&rt, &WEEKS)?;
    print_listings(&rt, &REFUSALS)?;
    print_listings(&rt, &LARGER_WEEKS)?;
    printed_week_logs(&rt)?;
    overload_before_calendar_logs(&rt)?;
    two_rooms_logs(&rt)?;
    pairs_logs(&rt)?;
    log_of_two_parts(&rt)?;
    print_rewritings(&rt)?;
    print_pieces(&rt)?;
    memory_after_reading(&rt)
}
