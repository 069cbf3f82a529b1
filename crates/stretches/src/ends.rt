// How far a task that starts at some hour may reach. The calendar and the start stand beside a reach and not in it: each step would have to promise
// that they stay. So `IsReach`, a fact of all three, stands in the contracts of several functions.
ghost use Rattle.std.specs.Prelude.{Some, None, true, false, ◌≡◌, ◌+◌, ◌-◌, ◌%◌, ◌≤◌, ◌<◌, leb, ltb, eqb, length, if◌then◌else◌};
ghost use Rattle.units.specs.Choice.{◌and◌};
ghost use Rattle.units.specs.Limits.{most_hours};
ghost use Rattle.units.specs.Sums.{one_if};
ghost use Rattle.plan.specs.HourKinds.{regular};
ghost use Rattle.plan.specs.Packed.{letter_of};
ghost use Rattle.plan.specs.Calendars.{letters_in};
ghost use Rattle.stretches.specs.declared.Reach.{Reach};
ghost use Rattle.stretches.specs.Inner.Stretches.{IsReach, IsCodeOf, HasFirst, stretch_from, nothing_at, with_letter, without_letter, with_next, with_four, WithMore};
ghost use Rattle.stretches.specs.Inner.Stretches.{stretch_of, may_end, may_last};
ghost use Rattle.stretches.specs.Inner.Stretches.{shortest_at, longest_at, lengthened};

use crate::{Counts, Reach, Stretch, Task};
use plan::{Calendar, HourCode, HourKind, PER_BYTE};
use units::{Duration, Hour};

// A length in more bits, for a sum. (Taken by value: of a number behind a task's reference no limit is known, since its calendar has a ghost field.)
fn wide(n: Duration) -> u32
    ensures { (result ≡ n.0) × (result < 65536) }
{
    u32::from(n.0)
}

// The hours from a start on, or none where the end lies before it.
fn hours_from(s: Hour, end: Hour) -> Duration
    ensures { result.0 ≡ end.0 - s.0 }
{
    Duration(end.0.saturating_sub(s.0))
}

impl Reach {
    // Of no hours, at an hour.
    pub fn nothing_at(s: Hour) -> Reach
        ensures { result ≡ nothing_at s.0 }
    {
        Reach {
            end: s,
            open_end: s,
            regular_end: s,
            regular: 0,
            overtime: 0,
        }
    }

    // The stretch from the start to the end.
    pub fn stretch_from(self, s: Hour) -> Stretch
        requires { (s.0 ≤ self.end.0) × (self.regular ≤ most_hours) }
        ensures { result ≡ stretch_from s.0 self }
    {
        Stretch {
            hours: self.end.since(s),
            last: hours_from(s, self.open_end),
            regular: hours_from(s, self.regular_end),
            counts: Counts {
                regular: self.regular as u16,
                overtime: self.overtime,
            },
        }
    }

    // With the hour after its end, by its code.
    fn with_next(self, code: HourCode) -> Reach
        requires { (self.end.0 < most_hours) × (self.regular < most_hours) × (self.overtime < most_hours) }
        ensures { result ≡ with_letter (letter_of code.number) self }
    {
        let end = Hour(self.end.0 + 1);
        let is_open = !code.is(HourKind::Closed);
        let regular = code.regular_count();
        Reach {
            end,
            open_end: if is_open { end } else { self.open_end },
            regular_end: if 0 < regular { end } else { self.regular_end },
            regular: self.regular + u32::from(regular),
            overtime: self.overtime + code.overtime_count(),
        }
    }

    // With the four hours after its end, which are those of one byte: it is read once.
    fn with_four(self, calendar: &Calendar) -> Reach
        requires { let cal = letters_in calendar.now in
            (self.end.0 % 4 ≡ 0) × (self.end.0 + 4 ≤ length cal) × (length cal ≤ most_hours)
            × (self.regular + 4 ≤ most_hours) × (self.overtime + 4 ≤ most_hours) }
        ensures { result ≡ with_four (letters_in calendar.now) self }
    {
        let first = self.end.0 as usize / PER_BYTE * PER_BYTE;
        self.with_next(calendar.code_at(first))
            .with_next(calendar.code_at(first + 1))
            .with_next(calendar.code_at(first + 2))
            .with_next(calendar.code_at(first + 3))
    }

    // Whether four hours more begin a byte and end before a limit.
    fn has_four(self, limit: usize) -> bool
        ensures { result ≡ (eqb (self.end.0 % 4) 0 and leb (self.end.0 + 4) limit) }
    {
        self.end.0 as usize % PER_BYTE == 0 && self.end.0 as usize + PER_BYTE <= limit
    }

    // Without its first hour, by that hour's code, from the next start on: to the same end or, of no hours, to the next start.
    pub fn without_start(self, code: HourCode, s: Hour) -> Reach
        requires { (s.0 < most_hours) × HasFirst code s.0 self }
        ensures { result ≡ without_letter (letter_of code.number) s.0 self }
    {
        if self.end <= s {
            return Reach::nothing_at(Hour(s.0 + 1));
        }
        Reach {
            regular: self.regular - u32::from(code.regular_count()),
            overtime: self.overtime - code.overtime_count(),
            ..self
        }
    }
}

impl Task<'_> {
    // Whether the task may end with the reach, by the tests that hold of a longer one too, and by its last hour.
    fn may_end(&self, s: Hour, r: Reach) -> bool
        requires { IsReach (letters_in self.now.calendar) s.0 r × (1 ≤ self.now.bounds.shortest.0) }
        ensures { result ≡ may_end self.now.work_time.0 self.now.bounds (stretch_from s.0 r) }
    {
        let b = self.bounds;
        let p = self.work_time.0;
        // The test that fails most is made first.
        if r.regular + u32::from(r.overtime) < u32::from(p) {
            return false;
        }
        // Of some hours, the last is open where the two ends are one. No hours are fewer than the box allows, whatever stands here.
        if r.open_end != r.end {
            return false;
        }
        b.shortest <= r.end.since(s) && u32::from(p) <= r.regular + wide(b.most)
    }

    // Whether the regular hours of the reach, with the hour of a code, leave the box its least overtime.
    fn leaves_overtime(&self, r: Reach, code: HourCode) -> bool
        requires { r.regular ≤ most_hours }
        ensures { let T = self.now in
            result ≡ leb (r.regular + one_if (eqb (letter_of code.number) regular) + T.bounds.fewest.0) T.work_time.0 }
    {
        r.regular + u32::from(code.regular_count()) + wide(self.bounds.fewest)
            <= wide(self.work_time)
    }

    // A reach with one hour more or, where they begin a byte and end by a limit, with four. Inlined, so that the reach stays in registers.
    #[inline(always)]
    fn with_more(&self, at: Reach, limit: usize) -> Reach
        requires { let cal = letters_in self.now.calendar in (at.end.0 < limit) × (limit ≤ length cal) × (length cal ≤ most_hours)
            × (at.regular ≤ at.end.0) × (at.overtime ≤ at.end.0) }
        ensures { WithMore (letters_in self.now.calendar) limit at result }
    {
        if at.has_four(limit) {
            return at.with_four(&self.calendar);
        }
        at.with_next(self.calendar.code_at(at.end.0 as usize))
    }

    // Whether with four hours more the task can't have worked enough before the last of them.
    fn is_far(&self, r: Reach) -> bool
        requires { (r.regular ≤ most_hours) × (r.overtime ≤ most_hours) }
        ensures { result ≡ ltb (r.regular + r.overtime + 6) self.now.work_time.0 }
    {
        r.regular + u32::from(r.overtime) + 6 < wide(self.work_time)
    }

    // The reach, lengthened as long as the task is far from having worked enough: no test is made between the hours of a byte. Of the first start alone,
    // since from a later one the reach of the start before is near; so it is not inlined.
    #[inline(never)]
    pub fn worked_on(&self, s: Hour, r: Reach) -> Reach
        requires { IsReach (letters_in self.now.calendar) s.0 r }
        ensures { let T = self.now in let cal = letters_in T.calendar in
            IsReach cal s.0 result
            × (lengthened cal s.0 (shortest_at cal T.work_time.0 T.bounds s.0) (result.end.0 - s.0)
            ≡ lengthened cal s.0 (shortest_at cal T.work_time.0 T.bounds s.0) (r.end.0 - s.0)) }
    {
        let limit = self.calendar.len();
        let mut at = r;
        while (at.end.0 as usize) < limit && self.is_far(at) {
            at = self.with_more(at, limit);
        }
        at
    }

    // The shortest reach with which the task may end, and that is no shorter than the one given, if there is one. What it is from the start on is told, and
    // not where its hours before the start end.
    pub fn shortest_from(&self, s: Hour, r: Reach) -> Option<Reach>
        requires { IsReach (letters_in self.now.calendar) s.0 r × (1 ≤ self.now.bounds.shortest.0) }
        ensures found { let T = self.now in let cal = letters_in T.calendar in (at : Reach) → result ≡ Some at
            → IsReach cal s.0 at × (may_end T.work_time.0 T.bounds (stretch_from s.0 at) ≡ true)
            × (at.end.0 - s.0 ≡ lengthened cal s.0 (shortest_at cal T.work_time.0 T.bounds s.0) (r.end.0 - s.0)) }
        ensures none { let T = self.now in let cal = letters_in T.calendar in result ≡ None
            → may_end T.work_time.0 T.bounds (stretch_of cal s.0 (lengthened cal s.0 (shortest_at cal T.work_time.0 T.bounds s.0) (r.end.0 - s.0))) ≡ false }
    {
        let mut at = r;
        while !self.may_end(s, at) {
            if self.calendar.len() <= at.end.0 as usize {
                return None;
            }
            at = at.with_next(self.calendar.code_at(at.end.0 as usize));
        }
        Some(at)
    }

    // Whether the task may last the start, whose code is given, as its first hour, which is worked as the first and the last.
    fn lasts_first(&self, s: Hour, code: HourCode, r: Reach) -> bool
        requires { let cal = letters_in self.now.calendar in IsReach cal s.0 r × (r.end.0 ≤ s.0) × (s.0 < length cal) × IsCodeOf code cal s.0 }
        ensures { let T = self.now in result ≡ may_last (letters_in T.calendar) T.work_time.0 T.bounds s.0 1 }
    {
        if self.bounds.longest.0 < 1 {
            return false;
        }
        if self.work_time.0 < 1 {
            return false;
        }
        self.leaves_overtime(r, code)
    }

    // Whether the task may last the reach with four hours more, by its regular hours alone, of which so many may lie between the worked ends.
    fn has_spare(&self, at: Reach, most: u32) -> bool
        requires { at.regular ≤ most_hours }
        ensures { let T = self.now in result ≡ (leb (at.regular + 5) most and leb (at.regular + 4 + T.bounds.fewest.0) T.work_time.0) }
    {
        at.regular + 5 <= most && at.regular + 4 + wide(self.bounds.fewest) <= wide(self.work_time)
    }

    // The longest reach that the task is seen to last from a start on while no test is made between the hours of a byte, likewise.
    #[inline(never)]
    pub fn lasted_on(&self, s: Hour) -> Reach
        requires { let cal = letters_in self.now.calendar in (s.0 < length cal) × (length cal ≤ most_hours) }
        ensures { let T = self.now in let cal = letters_in T.calendar in
            IsReach cal s.0 result
            × (lengthened cal s.0 (longest_at cal T.work_time.0 T.bounds s.0) (result.end.0 - s.0)
            ≡ lengthened cal s.0 (longest_at cal T.work_time.0 T.bounds s.0) 0) }
    {
        let code = self.calendar.code_at(s.0 as usize);
        let none = Reach::nothing_at(s);
        if !self.lasts_first(s, code, none) {
            return none;
        }
        let limit = self
            .calendar
            .len()
            .min(s.0 as usize + self.bounds.longest.0 as usize);
        let most = wide(self.work_time) + u32::from(code.regular_count());
        let mut at = none.with_next(code);
        while (at.end.0 as usize) < limit && self.has_spare(at, most) {
            at = self.with_more(at, limit);
        }
        at
    }

    // The reach becomes the longest that the task may last, where it may last this one; the start's code is handed in, since the caller has read it. It is
    // lengthened by the tests that fewer hours pass too. The first and the last hour are worked besides the regular ones between; with one hour more than
    // the reach, those between are its own without the first. (In place: by value the compiler would pack the three ends into one number and part them
    // again at each start.)
    pub fn lengthen(&self, s: Hour, code: HourCode, at: &mut Reach)
        requires { let cal = letters_in self.now.calendar in IsReach cal s.0 at.old × (s.0 < length cal) × IsCodeOf code cal s.0 }
        ensures { let T = self.now in let cal = letters_in T.calendar in
            IsReach cal s.0 at.new
            × (at.new.end.0 - s.0 ≡ lengthened cal s.0 (longest_at cal T.work_time.0 T.bounds s.0) (at.old.end.0 - s.0)) }
    {
        if at.end <= s {
            if !self.lasts_first(s, code, *at) {
                return;
            }
            *at = at.with_next(code);
        }
        let limit = self
            .calendar
            .len()
            .min(s.0 as usize + self.bounds.longest.0 as usize);
        let most = wide(self.work_time) + u32::from(code.regular_count());
        // The next hour's code is asked for twice, and read once.
        while (at.end.0 as usize) < limit
            && at.regular + 2 <= most
            && self.leaves_overtime(*at, self.calendar.code_at(at.end.0 as usize))
        {
            *at = at.with_next(self.calendar.code_at(at.end.0 as usize));
        }
    }
}
