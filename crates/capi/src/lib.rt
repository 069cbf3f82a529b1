// The entry points for callers in C and Rust, each a thin function over the one that it names. A slice is a pointer and a length to them;
// the answer is written to an array of fixed length, as numbers (shimlantern.h says which).
#![tactic(auto)]

ghost use Rattle.std.specs.Prelude.{◌≡◌, length};
ghost use Rattle.units.specs.Cells.{written};
ghost use Rattle.plan.specs.Boxes.{bounds_at};
ghost use Rattle.plan.specs.Over.{packed_plan};
ghost use Rattle.calendar.specs.Entry.{packed_rule};
ghost use Rattle.schedule.specs.Entry.{check_packed};
ghost use Rattle.steps.specs.Entry.{check_log_packed, check_answer, filter_end, filter_packed};
ghost use Rattle.plan_format.specs.Reading.{end_with, read_plan};
ghost use Rattle.plan_format.specs.Writing.{write_packed};
ghost use Rattle.text_listing.specs.Program.{listing_of_text};
ghost use Rattle.answers.specs.Numbers.{rule_numbers, schedule_numbers, log_numbers, filter_numbers, read_numbers, write_numbers};

use plan::Plan;
use units::Duration;

// The calendar rule for one packed calendar of so many hours, a work time and a box of six numbers.
#[unsafe(no_mangle)]
pub extern "C" fn shimlantern_calendar_rule(
    hours: u16,
    calendar: &[u8],
    work_time: u16,
    bounds: &[u16; 6],
    answer: &mut [u64; 29],
)
    ensures { answer.new ≡ rule_numbers (packed_rule hours calendar.now work_time (bounds_at bounds.now 0)) }
{
    let b = plan::bounds_at(bounds, 0);
    let found = calendar::calendar_rule(Duration(hours), calendar, Duration(work_time), b);
    *answer = answers::rule_numbers(found);
}

// The schedule checker.
#[unsafe(no_mangle)]
pub extern "C" fn shimlantern_check_schedule(
    hours: u16,
    capacities: &[u16],
    calendars: &[u8],
    task_calendars: &[u16],
    work_times: &[u16],
    heights: &[u16],
    pairs: &[u16],
    boxes: &[u16],
    schedule: &[u16],
    answer: &mut [u64; 3],
)
    ensures { let P = packed_plan hours capacities.now calendars.now task_calendars.now work_times.now heights.now pairs.now in
        answer.new ≡ schedule_numbers (check_packed P boxes.now schedule.now) }
{
    let plan = Plan::new(
        hours,
        capacities,
        calendars,
        task_calendars,
        work_times,
        heights,
        pairs,
    );
    let checked = schedule::check_schedule(&plan, boxes, schedule);
    *answer = answers::schedule_numbers(checked);
}

// The log checker.
#[unsafe(no_mangle)]
pub extern "C" fn shimlantern_check_log(
    hours: u16,
    capacities: &[u16],
    calendars: &[u8],
    task_calendars: &[u16],
    work_times: &[u16],
    heights: &[u16],
    pairs: &[u16],
    boxes: &mut [u16],
    log_kinds: &[u8],
    log_tasks: &[u16],
    log_hours: &[u16],
    answer: &mut [u64; 4],
)
    ensures { let P = packed_plan hours capacities.now calendars.now task_calendars.now work_times.now heights.now pairs.now in
        let e = check_log_packed P boxes.old log_kinds.now log_tasks.now log_hours.now in
        (answer.new ≡ log_numbers (check_answer e)) × (boxes.new ≡ e.boxes) }
{
    let plan = Plan::new(
        hours,
        capacities,
        calendars,
        task_calendars,
        work_times,
        heights,
        pairs,
    );
    let checked = propagation::replay::check_log(&plan, boxes, log_kinds, log_tasks, log_hours);
    *answer = answers::log_numbers(checked);
}

// The filter, with the log lent as its room.
#[unsafe(no_mangle)]
pub extern "C" fn shimlantern_filter(
    hours: u16,
    capacities: &[u16],
    calendars: &[u8],
    task_calendars: &[u16],
    work_times: &[u16],
    heights: &[u16],
    pairs: &[u16],
    boxes: &mut [u16],
    log_kinds: &mut [u8],
    log_tasks: &mut [u16],
    log_hours: &mut [u16],
    answer: &mut [u64; 4],
)
    ensures { let P = packed_plan hours capacities.now calendars.now task_calendars.now work_times.now heights.now pairs.now in
        let e = filter_packed P boxes.old log_kinds.old log_tasks.old log_hours.old in
        (answer.new ≡ filter_numbers e.answer)
        × (filter_end e.answer boxes.new log_kinds.new log_tasks.new log_hours.new ≡ e) }
{
    let plan = Plan::new(
        hours,
        capacities,
        calendars,
        task_calendars,
        work_times,
        heights,
        pairs,
    );
    let filtered = propagation::filter::filter(&plan, boxes, log_kinds, log_tasks, log_hours);
    *answer = answers::filter_numbers(filtered);
}

// Reads a plan text into memory for the most that a plan can hold.
#[unsafe(no_mangle)]
pub extern "C" fn shimlantern_read_plan(
    text: &[u8],
    capacities: &mut [u16],
    calendars: &mut [u8],
    task_calendars: &mut [u16],
    work_times: &mut [u16],
    heights: &mut [u16],
    pairs: &mut [u16],
    boxes: &mut [u16],
    answer: &mut [u64; 7],
)
    ensures { let e = read_plan capacities.old calendars.old task_calendars.old work_times.old heights.old pairs.old boxes.old text.now in
        (answer.new ≡ read_numbers e.answer)
        × (end_with e.answer capacities.new calendars.new task_calendars.new work_times.new heights.new pairs.new boxes.new ≡ e) }
{
    let reading = plan_text::read_plan(
        text,
        capacities,
        calendars,
        task_calendars,
        work_times,
        heights,
        pairs,
        boxes,
    );
    *answer = answers::read_numbers(reading);
}

// Writes a plan as text.
#[unsafe(no_mangle)]
pub extern "C" fn shimlantern_write_plan(
    hours: u16,
    capacities: &[u16],
    calendars: &[u8],
    task_calendars: &[u16],
    work_times: &[u16],
    heights: &[u16],
    pairs: &[u16],
    boxes: &[u16],
    out: &mut [u8],
    answer: &mut [u64; 3],
)
    ensures { let P = packed_plan hours capacities.now calendars.now task_calendars.now work_times.now heights.now pairs.now in
        let e = write_packed P boxes.now out.old in
        (answer.new ≡ write_numbers e.answer) × (out.new ≡ e.out) }
{
    let plan = Plan::new(
        hours,
        capacities,
        calendars,
        task_calendars,
        work_times,
        heights,
        pairs,
    );
    let writing = plan_writing::write_plan(&plan, boxes, out);
    *answer = answers::write_numbers(writing);
}

// What the program prints for a plan text, and its length; the bytes past it are untouched.
#[unsafe(no_mangle)]
pub extern "C" fn shimlantern_list_text(text: &[u8], out: &mut [u8; listing::ROOM]) -> usize
    ensures { (result ≡ length (listing_of_text text.now)) × (out.new ≡ written (listing_of_text text.now) out.old) }
{
    text_listing::list_text(text, out)
}
