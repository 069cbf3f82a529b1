// A plan in lent memory: its parts, and why a call is refused.
#![tactic(auto)]

ghost use Rattle.std.specs.Prelude.{eqb, take, drop, ◌/◌, ◌≡◌, ◌+◌, ◌*◌, ◌≤◌, ◌<◌, length, get_or};
ghost use Rattle.units.specs.Limits.{box_numbers, pair_numbers, duration, height};
ghost use Rattle.units.specs.Sums.{one_if};
ghost use Rattle.plan.specs.Plan.{plan, room_count, task_count, pair_count, calendar_count, first_symbol, calendar_at, calendar_of, work_time_of, capacity_of, room_part, heights_of, pair_of};
ghost use Rattle.plan.specs.Lent.{shifts_in, plan_in, packed_in, CalendarAt, HasCalendar};
ghost use Rattle.plan.specs.Over.{packed_plan};
ghost use Rattle.plan.specs.HourKinds.{regular, overtime, is_kind, symbol_of};
ghost use Rattle.plan.specs.Packed.{bytes_of, letters, code_at, letter_of};
ghost use Rattle.plan.specs.Calendars.{letters_in};
ghost use Rattle.plan.specs.Boxes.{bounds_at, box_cells, with_bounds};
ghost use Rattle.plan.specs.Refusals.{fault_of};

mod calendar;

pub use calendar::{Calendar, HourCode};
use units::{Bounds, Duration, Height, Hour, Pair};

// What the calendar rule reads of a plan: H, the calendars, packed and joined, and one number a task for each of its calendar and its work time p.
#[derive(Clone, Copy)]
pub struct Shifts<'a> {
    pub hours: Duration,
    pub calendars: &'a [u8],
    pub task_calendars: &'a [u16],
    pub work_times: &'a [u16],
}

// A plan: that part, the capacity of each room, room by room one number a task for its height there, and two numbers a pair of tasks, the earlier
// first. The boxes are lent beside the plan and are no field of it: some calls write them, which would have to promise then that the plan stays,
// and C lends the two as slices of their own.
#[derive(Clone, Copy)]
pub struct Plan<'a> {
    pub shifts: Shifts<'a>,
    pub capacities: &'a [u16],
    pub heights: &'a [u16],
    pub pairs: &'a [u16],
}

#[tactic(auto, unfolding(crate::specs::Plan::calendar_of))]
impl<'a> Shifts<'a> {
    // How many tasks there are.
    pub fn tasks(&self) -> usize
        ensures { result ≡ length self.now.task_calendars.now }
    {
        self.task_calendars.len()
    }

    // How many calendars of H hours there are.
    pub fn calendar_count(&self) -> usize
        requires { 1 ≤ self.now.hours.0 }
        ensures { result ≡ calendar_count (shifts_in self.now) }
    {
        self.calendars.len() / bytes_of(self.hours)
    }

    // One calendar.
    pub fn calendar_at(&self, number: u16) -> Calendar<'a>
        requires { CalendarAt (shifts_in self.now) number }
        ensures { letters_in result ≡ calendar_at (shifts_in self.now) number }
    {
        let each = bytes_of(self.hours);
        let from = first_within(self.calendars.len(), number, each as u16);
        Calendar {
            bytes: bytes_from(self.calendars, from, each),
            hours: self.hours,
        }
    }

    // A task's calendar.
    pub fn calendar_of(&self, i: usize) -> Calendar<'a>
        requires { HasCalendar (shifts_in self.now) i }
        ensures { letters_in result ≡ calendar_of (shifts_in self.now) i }
    {
        self.calendar_at(self.task_calendars[i])
    }

    // A task's work time.
    pub fn work_time_of(&self, i: usize) -> Duration
        requires { i < length self.now.work_times.now }
        ensures { result ≡ duration (work_time_of (shifts_in self.now) i) }
    {
        Duration(self.work_times[i])
    }
}

#[tactic(auto, unfolding(crate::specs::Plan::heights_of))]
impl<'a> Plan<'a> {
    // The plan that lent numbers and slices hold.
    pub fn new(
        hours: u16,
        capacities: &'a [u16],
        calendars: &'a [u8],
        task_calendars: &'a [u16],
        work_times: &'a [u16],
        heights: &'a [u16],
        pairs: &'a [u16],
    ) -> Plan<'a>
        ensures { packed_in result
            ≡ packed_plan hours capacities.now calendars.now task_calendars.now work_times.now heights.now pairs.now }
    {
        let shifts = Shifts {
            hours: Duration(hours),
            calendars,
            task_calendars,
            work_times,
        };
        Plan {
            shifts,
            capacities,
            heights,
            pairs,
        }
    }

    // How many rooms there are.
    pub fn rooms(&self) -> usize
        ensures { result ≡ room_count (plan_in self.now) }
    {
        self.capacities.len()
    }

    // How many tasks there are.
    pub fn tasks(&self) -> usize
        ensures { result ≡ task_count (plan_in self.now) }
    {
        self.shifts.tasks()
    }

    // How many pairs there are.
    pub fn pair_count(&self) -> usize
        ensures { result ≡ pair_count (plan_in self.now) }
    {
        self.pairs.len() / Pair::NUMBERS
    }

    // The capacity of a room.
    pub fn capacity_of(&self, room: usize) -> Height
        requires { room < length self.now.capacities.now }
        ensures { result ≡ height (capacity_of (plan_in self.now) room) }
    {
        Height(self.capacities[room])
    }

    // The heights of all tasks in a room.
    pub fn heights_of(&self, room: usize) -> &'a [u16]
        requires { room * length self.now.shifts.task_calendars.now + length self.now.shifts.task_calendars.now ≤ length self.now.heights.now }
        ensures { result.now ≡ heights_of (plan_in self.now) room }
    {
        room_part(self.heights, self.tasks(), room)
    }

    // The two tasks of pair k.
    pub fn pair_of(&self, k: usize) -> Pair
        requires { pair_numbers * k + pair_numbers ≤ length self.now.pairs.now }
        ensures { result ≡ pair_of (plan_in self.now) k }
    {
        let first = Pair::NUMBERS * k;
        Pair {
            earlier: self.pairs[first],
            later: self.pairs[first + 1],
        }
    }
}

// Why a call is refused, in the order of the papers' numbers, with the place where they name one.
#[derive(Clone, Copy, PartialEq, Eq)]
pub enum Refusal {
    // 1, at a line counted from 1.
    Malformed(usize),
    // 2
    Hours,
    // 3
    Calendars,
    // 4, at the symbol's index, calendars joined.
    Symbol(usize),
    // 5
    Tasks,
    // 6 to 9, at a task.
    NoCalendar(usize),
    WorkTime(usize),
    TaskHeight(usize),
    TaskBounds(usize),
    // 10
    Capacity,
    // 11 to 13, at a step of the log.
    UnknownStep(usize),
    NotAdmitted(usize),
    AfterImpossible(usize),
    // 14 and 15, at a task of the schedule.
    OutsideBounds(usize),
    NotValid(usize),
    // 16, at the first such hour.
    OverCapacity(usize),
    // 17
    Rooms,
    // 18, at a pair.
    PairTasks(usize),
    // 19
    Pairs,
    // 20, at the first pair that the schedule breaks.
    PairBroken(usize),
    // 21, at a calendar.
    Packing(usize),
    // 31
    MemorySize,
    // 33
    OutputSize,
}

// A refusal as 01 gives it: its number, then its place.
#[derive(Clone, Copy, PartialEq, Eq)]
pub struct Fault {
    pub number: u16,
    pub place: usize,
}

// 01's number and place of each refusal.
impl From<Refusal> for Fault {
    ghost from_gives = { λ refusal fault. fault ≡ fault_of refusal };

    fn from(refusal: Refusal) -> Fault {
        let (number, place) = match refusal {
            Refusal::Malformed(line) => (1, line),
            Refusal::Hours => (2, 0),
            Refusal::Calendars => (3, 0),
            Refusal::Symbol(index) => (4, index),
            Refusal::Tasks => (5, 0),
            Refusal::NoCalendar(task) => (6, task),
            Refusal::WorkTime(task) => (7, task),
            Refusal::TaskHeight(task) => (8, task),
            Refusal::TaskBounds(task) => (9, task),
            Refusal::Capacity => (10, 0),
            Refusal::UnknownStep(step) => (11, step),
            Refusal::NotAdmitted(step) => (12, step),
            Refusal::AfterImpossible(step) => (13, step),
            Refusal::OutsideBounds(task) => (14, task),
            Refusal::NotValid(task) => (15, task),
            Refusal::OverCapacity(hour) => (16, hour),
            Refusal::Rooms => (17, 0),
            Refusal::PairTasks(pair) => (18, pair),
            Refusal::Pairs => (19, 0),
            Refusal::PairBroken(pair) => (20, pair),
            Refusal::Packing(calendar) => (21, calendar),
            Refusal::MemorySize => (31, 0),
            Refusal::OutputSize => (33, 0),
        };
        Fault { number, place }
    }
}

// The box of task i.
pub fn bounds_at(boxes: &[u16], i: usize) -> Bounds
    requires { box_numbers * i + box_numbers ≤ length boxes.now }
    ensures { result ≡ bounds_at boxes.now i }
{
    let first = Bounds::NUMBERS * i;
    Bounds {
        earliest: Hour(boxes[first]),
        latest: Hour(boxes[first + 1]),
        shortest: Duration(boxes[first + 2]),
        longest: Duration(boxes[first + 3]),
        fewest: Duration(boxes[first + 4]),
        most: Duration(boxes[first + 5]),
    }
}

// The numbers of a box as memory holds them.
pub fn box_cells(b: Bounds) -> [u16; Bounds::NUMBERS]
    ensures { result ≡ box_cells b }
{
    [
        b.earliest.0,
        b.latest.0,
        b.shortest.0,
        b.longest.0,
        b.fewest.0,
        b.most.0,
    ]
}

// Another box for task i.
pub fn put_bounds(boxes: &mut [u16], i: usize, b: Bounds)
    requires { box_numbers * i + box_numbers ≤ length boxes.old }
    ensures { boxes.new ≡ with_bounds boxes.old i b }
{
    let first = Bounds::NUMBERS * i;
    boxes[first..first + Bounds::NUMBERS].copy_from_slice(&box_cells(b));
}

// So many bytes from one on.
fn bytes_from(bytes: &[u8], from: usize, each: usize) -> &[u8]
    requires { from + each ≤ length bytes.now }
    ensures is { result.now ≡ take each (drop from bytes.now) }
    ensures size { length result.now ≡ each }
{
    &bytes[from..from + each]
}

// Of numbers that lie room by room, so many a room, those of one: the heights of all tasks in a room, the loads of all hours.
pub fn room_part(numbers: &[u16], each: usize, room: usize) -> &[u16]
    requires { room * each + each ≤ length numbers.now }
    ensures { result.now ≡ room_part each numbers.now room }
{
    let from = room * each;
    &numbers[from..from + each]
}

// The height of task i.
pub fn height_at(heights: &[u16], i: usize) -> Height
    requires { i < length heights.now }
    ensures { result ≡ height (get_or heights.now i 0) }
{
    Height(heights[i])
}

// How many hours a byte of a calendar holds.
pub const PER_BYTE: usize = 4;

// How many bytes hold a calendar of so many hours.
#[tactic(auto, unfolding(crate::specs::Packed::bytes_of))]
pub fn bytes_of(hours: Duration) -> usize
    ensures { (result ≡ bytes_of hours.0) × (result ≤ 16384) }
{
    (hours.0 as usize + PER_BYTE - 1) / PER_BYTE
}

// The code of an hour, in the bytes of a calendar. Nothing else reads a byte of a calendar that has passed the tests.
#[tactic(auto, unfolding(crate::specs::Packed::code_at))]
fn code_of(bytes: &[u8], t: usize) -> u8
    requires { t / 4 < length bytes.now }
    ensures { result ≡ code_at bytes.now t }
{
    (bytes[t / PER_BYTE] >> (2 * (t % PER_BYTE))) % 4
}

// The kinds of an hour, by their codes.
#[derive(Clone, Copy, PartialEq, Eq)]
pub enum HourKind {
    Closed = 0,
    Regular = 1,
    Overtime = 2,
}

impl HourCode {
    // Whether it is the kind's.
    pub fn is(self, kind: HourKind) -> bool
        ensures { result ≡ eqb (letter_of self.number) (symbol_of kind) }
    {
        self.number == kind as u8
    }

    // 1 for a regular hour. A code is two bits of which one at most is set, so that each is a count by itself.
    pub fn regular_count(self) -> u16
        ensures { (result ≡ one_if (eqb (letter_of self.number) regular)) × (result ≤ 1) }
    {
        u16::from(self.number % 2)
    }

    // 1 for an overtime hour.
    pub fn overtime_count(self) -> u16
        ensures { (result ≡ one_if (eqb (letter_of self.number) overtime)) × (result ≤ 1) }
    {
        u16::from(self.number / 2)
    }
}

impl Calendar<'_> {
    // How many hours there are.
    pub fn len(&self) -> usize
        ensures { result ≡ length (letters_in self.now) }
    {
        self.hours.0 as usize
    }

    // The code of an hour.
    pub fn code_at(&self, t: usize) -> HourCode
        requires { t < length (letters_in self.now) }
        ensures { letter_of result.number ≡ get_or (letters_in self.now) t 0 }
    {
        HourCode {
            number: code_of(self.bytes, t),
        }
    }
}

impl HourKind {
    // Whether an hour of a calendar is of the kind.
    #[tactic(auto, unfolding(crate::specs::HourKinds::is_kind))]
    pub fn is_at(self, calendar: &Calendar, t: usize) -> bool
        requires { t < length (letters_in calendar.now) }
        ensures { result ≡ is_kind (symbol_of self) (letters_in calendar.now) t }
    {
        calendar.code_at(t).is(self)
    }
}

// Where a calendar begins, if that is within a limit: its cells added once for each calendar before it, since some machines that are to run this have no
// wide multiplication (02, W-203). The second way out is never taken. Without it the compiler makes a product of the loop.
fn first_within(limit: usize, number: u16, each: u16) -> usize
    requires { first_symbol each number ≤ limit }
    ensures { result ≡ first_symbol each number }
{
    let step = each as usize;
    let mut first = 0;
    for _ in 0..number {
        if limit - first < step {
            break;
        }
        first += step;
    }
    first
}

// The greatest index that any number and any H give, a product made at compile time: of a greater limit the compiler sees that it is never passed.
const MOST_FIRST: usize = u16::MAX as usize * u16::MAX as usize;

// Where a calendar begins among the letters of all calendars, joined.
pub fn first_symbol(number: u16, hours: Duration) -> usize
    ensures { result ≡ first_symbol hours.0 number }
{
    first_within(MOST_FIRST, number, hours.0)
}

// Where a calendar begins among the bytes of all calendars, joined, and so how many bytes so many calendars have.
pub fn first_byte(number: u16, hours: Duration) -> usize
    ensures { result ≡ first_symbol (bytes_of hours.0) number }
{
    first_within(MOST_FIRST, number, bytes_of(hours) as u16)
}
