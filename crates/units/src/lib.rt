// The kinds of value that a plan is made of. Document 01's limits stand here, each once, at the kind of value that it limits.
#![tactic(auto)]

ghost use Rattle.std.specs.Prelude.{◌≡◌, ◌+◌, ◌-◌, ◌*◌, ◌≤◌, ◌<◌, leb, ltb, eqb};
ghost use Rattle.units.specs.Limits.{hour, duration, height, within, is_plan_length, is_hour, is_work_time, is_height, is_capacity, is_task_count, is_pair_count, is_pair, is_overtime, is_box, with_earliest, with_latest};
ghost use Rattle.units.specs.Choice.{some_if};
ghost use Rattle.units.specs.Inner.Order.{in_order};

// An hour of the clock: hour 0 is the plan's first.
#[derive(Clone, Copy, PartialEq, Eq, PartialOrd, Ord)]
pub struct Hour(pub u16);

// A length in hours.
#[derive(Clone, Copy, PartialEq, Eq, PartialOrd, Ord)]
pub struct Duration(pub u16);

// How much of a room's capacity a task takes, and the capacity itself (01's racks).
#[derive(Clone, Copy, PartialEq, Eq, PartialOrd, Ord)]
pub struct Height(pub u16);

// A place, from 0, among the things of a kind of which a plan has one to so many.
#[derive(Clone, Copy, PartialEq, Eq, PartialOrd, Ord)]
pub struct Place<const MOST: usize>(pub u16);

// The most calendars of a plan, and a calendar's place among them.
pub const MOST_CALENDARS: usize = 16;

pub type CalendarNumber = Place<MOST_CALENDARS>;

// The most rooms of a plan, and a room's place among them.
pub const MOST_ROOMS: usize = 8;

pub type RoomNumber = Place<MOST_ROOMS>;

// 01's box: the least and the greatest start, elapsed time and overtime that a task may have.
#[derive(Clone, Copy, PartialEq, Eq)]
pub struct Bounds {
    pub earliest: Hour,
    pub latest: Hour,
    pub shortest: Duration,
    pub longest: Duration,
    pub fewest: Duration,
    pub most: Duration,
}

// Two tasks of a plan: the earlier one is to end before the later one starts, or as it does.
#[derive(Clone, Copy, PartialEq, Eq)]
pub struct Pair {
    pub earlier: u16,
    pub later: u16,
}

impl Hour {
    // An hour of a plan of so many hours.
    pub fn of_plan(number: u16, hours: Duration) -> Option<Hour>
        ensures { result ≡ some_if (is_hour hours.0 number) (hour number) }
    {
        (number < hours.0).then_some(Hour(number))
    }

    // The hour so much later: where a task that starts here ends.
    pub fn plus(self, elapsed: Duration) -> Hour
        requires { self.0 + elapsed.0 < 65536 }
        ensures { result ≡ hour (self.0 + elapsed.0) }
    {
        Hour(self.0 + elapsed.0)
    }

    // The hour so much earlier, where the plan's first is not later than that.
    pub fn minus(self, elapsed: Duration) -> Option<Hour>
        ensures { result ≡ some_if (leb elapsed.0 self.0) (hour (self.0 - elapsed.0)) }
    {
        self.0.checked_sub(elapsed.0).map(Hour)
    }

    // The time from an earlier hour to this one.
    pub fn since(self, earlier: Hour) -> Duration
        requires { earlier.0 ≤ self.0 }
        ensures { result ≡ duration (self.0 - earlier.0) }
    {
        Duration(self.0 - earlier.0)
    }
}

impl Duration {
    // The hours of the longest plan.
    pub const MOST: u16 = 8784;

    // The length of a plan.
    pub fn of_plan(hours: usize) -> Option<Duration>
        ensures { result ≡ some_if (is_plan_length hours) (duration hours) }
    {
        if !is_within(1, Duration::MOST as usize, hours) {
            return None;
        }
        Some(Duration(hours as u16))
    }

    // A work time or an elapsed time in a plan of so many hours.
    pub fn of_work(number: u16, hours: Duration) -> Option<Duration>
        ensures { result ≡ some_if (is_work_time hours.0 number) (duration number) }
    {
        is_within(1, hours.0 as usize, number as usize).then_some(Duration(number))
    }

    // The overtime of a task with the work time.
    pub fn of_overtime(number: u16, work_time: Duration) -> Option<Duration>
        ensures { result ≡ some_if (is_overtime work_time.0 number) (duration number) }
    {
        (number <= work_time.0).then_some(Duration(number))
    }
}

impl Height {
    // The most that a task takes.
    pub const MOST: u16 = 1000;

    // The greatest capacity.
    pub const MOST_CAPACITY: u16 = 60000;

    // The height of a task.
    pub fn of_task(number: u16) -> Option<Height>
        ensures { result ≡ some_if (is_height number) (height number) }
    {
        (number <= Height::MOST).then_some(Height(number))
    }

    // With another height in the same hour.
    pub fn plus(self, other: Height) -> Height
        requires { self.0 + other.0 < 65536 }
        ensures { result ≡ height (self.0 + other.0) }
    {
        Height(self.0 + other.0)
    }

    // The capacity of a room: the same line as `of_task` with another limit, which is no plainer as a parameter.
    pub fn of_plan(number: u16) -> Option<Height>
        ensures { result ≡ some_if (is_capacity number) (height number) }
    {
        (number <= Height::MOST_CAPACITY).then_some(Height(number))
    }
}

impl<const MOST: usize> Place<MOST> {
    // Whether a plan may have so many of the kind.
    pub fn is_count(count: usize) -> bool
        ensures { result ≡ within 1 MOST count }
    {
        is_within(1, MOST, count)
    }

    // A place of a plan that has so many of the kind.
    pub fn of_plan(number: u16, count: usize) -> Option<Self>
        ensures { result ≡ some_if (ltb number count) (record { 0 = number }) }
    {
        ((number as usize) < count).then_some(Place(number))
    }
}

impl Bounds {
    // The most boxes of a plan, one for each task.
    pub const MOST: usize = 64;

    // How many numbers a box has in lent memory: the bounds of S, E and O, the lower first.
    pub const NUMBERS: usize = 6;

    // Whether a plan may have so many tasks.
    pub fn is_count(tasks: usize) -> bool
        ensures { result ≡ is_task_count tasks }
    {
        tasks <= Bounds::MOST
    }

    // The box of a task with the work time, in a plan of so many hours.
    pub fn of_task(b: Bounds, hours: Duration, work_time: Duration) -> Option<Bounds>
        ensures { result ≡ some_if (is_box hours.0 work_time.0 b) b }
    {
        let earliest = Hour::of_plan(b.earliest.0, hours);
        let latest = Hour::of_plan(b.latest.0, hours);
        if !are_in_order(earliest, latest) {
            return None;
        }
        let shortest = Duration::of_work(b.shortest.0, hours);
        let longest = Duration::of_work(b.longest.0, hours);
        if !are_in_order(shortest, longest) {
            return None;
        }
        let fewest = Duration::of_overtime(b.fewest.0, work_time);
        let most = Duration::of_overtime(b.most.0, work_time);
        are_in_order(fewest, most).then_some(b)
    }

    // The box with another lower bound of S, where that is at most the upper. This and the next one stay two: a flag for the end would say no more.
    #[tactic(auto, unfolding(crate::specs::Limits::with_earliest))]
    pub fn starting_from(self, earliest: Hour) -> Option<Bounds>
        ensures { result ≡ some_if (leb earliest.0 self.latest.0) (with_earliest self earliest.0) }
    {
        (earliest <= self.latest).then_some(Bounds { earliest, ..self })
    }

    // The box with another upper bound of S, where the lower is at most that.
    #[tactic(auto, unfolding(crate::specs::Limits::with_latest))]
    pub fn starting_by(self, latest: Hour) -> Option<Bounds>
        ensures { result ≡ some_if (leb self.earliest.0 latest.0) (with_latest self latest.0) }
    {
        (self.earliest <= latest).then_some(Bounds { latest, ..self })
    }
}

impl Pair {
    // The most pairs of a plan.
    pub const MOST: usize = 256;

    // How many numbers a pair has in lent memory: the earlier task, then the later.
    pub const NUMBERS: usize = 2;

    // Whether a plan may have so many pairs.
    pub fn is_count(pairs: usize) -> bool
        ensures { result ≡ is_pair_count pairs }
    {
        pairs <= Pair::MOST
    }

    // A pair of a plan with so many tasks.
    #[tactic(auto, unfolding(crate::specs::Limits::is_pair))]
    pub fn of_plan(pair: Pair, tasks: usize) -> Option<Pair>
        ensures { result ≡ some_if (is_pair tasks pair) pair }
    {
        let is_pair = (pair.earlier as usize) < tasks
            && (pair.later as usize) < tasks
            && pair.earlier != pair.later;
        is_pair.then_some(pair)
    }
}

// Whether a number is neither below the least nor above the most. The contract of a range's `contains` speaks of whether the range is spent, so that
// each call would need a law.
pub fn is_within(least: usize, most: usize, number: usize) -> bool
    ensures { result ≡ within least most number }
{
    least <= number && number <= most
}

// Whether both are within the limits of their kind, the lower at most the upper.
fn are_in_order<T: Ord + Copy>(lower: Option<T>, upper: Option<T>) -> bool
    ensures { result ≡ in_order T.cmp lower upper }
{
    lower
        .zip(upper)
        .is_some_and(|(least, greatest)| least <= greatest)
}

// Whether a length is so many numbers for each of so many. It is divided, since the product may not fit.
pub fn is_for_each(length: usize, numbers: usize, count: usize) -> bool
    ensures { result ≡ eqb length (numbers * count) }
{
    if numbers == 0 {
        return length == 0;
    }
    length % numbers == 0 && length / numbers == count
}
