// Stretches of a calendar: so many hours from one start on, and their counts.
#![tactic(auto)]

mod ends;

ghost use Rattle.std.specs.Prelude.{◌≡◌, ◌+◌, ◌*◌, ◌≤◌, ◌<◌, length};
ghost use Rattle.units.specs.Limits.{box_numbers, most_hours, duration};
ghost use Rattle.plan.specs.Plan.{calendar_of, work_time_of};
ghost use Rattle.plan.specs.Boxes.{bounds_at};
ghost use Rattle.plan.specs.Calendars.{letters_in};
ghost use Rattle.plan.specs.Lent.{HasCalendar, shifts_in};
ghost use Rattle.stretches.specs.Inner.Stretches.{Inside, counts_of, with_hour, with_byte};

use plan::{Calendar, PER_BYTE, Shifts};
use units::{Bounds, Duration, Hour};

// A task as the calendar rule sees it: its calendar, its work time p, and its box.
#[derive(Clone, Copy)]
pub struct Task<'a> {
    pub calendar: Calendar<'a>,
    pub work_time: Duration,
    pub bounds: Bounds,
}

// The regular and the overtime hours of a stretch of a calendar.
#[derive(Clone, Copy)]
pub struct Counts {
    pub regular: u16,
    pub overtime: u16,
}

// So many hours from one start on, how many up to the last open one and up to the last regular one, and the counts.
#[derive(Clone, Copy)]
pub struct Stretch {
    pub hours: Duration,
    pub last: Duration,
    pub regular: Duration,
    pub counts: Counts,
}

// A stretch from some start, by hours of the plan, so that its ends stay as they are from the next start on: where it ends, where its last open hour
// ends and where its last regular one, if any lie after the start, and how many of its hours are regular and overtime. The two counts are of two widths:
// of one width both would be kept in one vector register, which is slower.
#[derive(Clone, Copy)]
pub struct Reach {
    pub end: Hour,
    pub open_end: Hour,
    pub regular_end: Hour,
    pub regular: u32,
    pub overtime: u16,
}

impl<'a> Task<'a> {
    // Task i of a plan.
    pub fn of_plan(shifts: &Shifts<'a>, boxes: &[u16], i: usize) -> Task<'a>
        requires { let S = shifts_in shifts.now in
            HasCalendar S i × (i < length S.work_times) × (box_numbers * i + box_numbers ≤ length boxes.now) }
        ensures { let S = shifts_in shifts.now in
            (letters_in result.calendar ≡ calendar_of S i)
            × (result.work_time ≡ duration (work_time_of S i))
            × (result.bounds ≡ bounds_at boxes.now i) }
    {
        Task {
            calendar: shifts.calendar_of(i),
            work_time: shifts.work_time_of(i),
            bounds: plan::bounds_at(boxes, i),
        }
    }
}

impl Counts {
    // Of no hours.
    pub const NO_HOURS: Counts = Counts {
        regular: 0,
        overtime: 0,
    };
}

// The counts with one hour more.
#[tactic(auto, unfolding(plan::specs::HourKinds::is_kind))]
fn with_hour(n: Counts, calendar: &Calendar, t: usize) -> Counts
    requires { (n.regular < most_hours) × (n.overtime < most_hours) × (t < length (letters_in calendar.now)) }
    ensures { result ≡ with_hour n (letters_in calendar.now) t }
{
    let code = calendar.code_at(t);
    Counts {
        regular: n.regular + code.regular_count(),
        overtime: n.overtime + code.overtime_count(),
    }
}

// The counts with the four hours of a byte more. The byte's number has 16 bits, so that the compiler sees that its hours' indices don't wrap, and thus that
// all four lie in it: it is read once.
fn with_byte(n: Counts, calendar: &Calendar, byte: u16) -> Counts
    requires { (n.regular + 4 ≤ most_hours) × (n.overtime + 4 ≤ most_hours) × (4 * byte + 4 ≤ length (letters_in calendar.now)) }
    ensures { result ≡ with_byte n (letters_in calendar.now) byte }
{
    let first = byte as usize * PER_BYTE;
    let one = with_hour(n, calendar, first);
    let two = with_hour(one, calendar, first + 1);
    let three = with_hour(two, calendar, first + 2);
    with_hour(three, calendar, first + 3)
}

// Of fewer hours than these the whole bytes are too few to be worth telling apart from the hours before and after them.
const FEW_HOURS: usize = 12;

// The byte from which on the hours from the first to the end are counted by whole bytes: the first one that begins among them or, of few hours, one that
// does not begin before the end.
fn whole_from(first: usize, end: usize) -> u16
    requires { (first ≤ end) × (end ≤ most_hours) }
    ensures { (first ≤ 4 * result) × (4 * result ≤ end + 3) }
{
    let from = if end - first < FEW_HOURS { end } else { first };
    ((from + PER_BYTE - 1) / PER_BYTE) as u16
}

// The counts of so many hours from the start on. Hour by hour, each would read its byte anew and find its own two bits there; so those of whole bytes are
// taken four at once, in a loop that the compiler vectorises.
pub fn count_hours(calendar: &Calendar, start: Hour, hours: Duration) -> Counts
    requires { Inside (letters_in calendar.now) start.0 hours.0 }
    ensures { result ≡ counts_of (letters_in calendar.now) start.0 hours.0 }
{
    let first = start.0 as usize;
    let end = first + hours.0 as usize;
    // The bytes that are counted whole, if there are any, and where the hours before them end and those after them begin.
    let from = whole_from(first, end);
    let to = (end / PER_BYTE) as u16;
    let before = end.min(from as usize * PER_BYTE);
    let after = before.max(to as usize * PER_BYTE);
    let mut n = Counts::NO_HOURS;
    for t in first..before {
        n = with_hour(n, calendar, t);
    }
    for byte in from..to {
        n = with_byte(n, calendar, byte);
    }
    for t in after..end {
        n = with_hour(n, calendar, t);
    }
    n
}
