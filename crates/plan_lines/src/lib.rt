// A plan text read line by line. What it holds is stored as far as there is room; what it counts goes on.
#![tactic(auto)]

ghost use Rattle.std.specs.Prelude.{true, List, ◌∷◌, [], ◌++◌, ◌≡◌, ℕ, ◌+◌, ◌-◌, ◌*◌, ◌≤◌, ◌<◌, length, get_or, drop};
ghost use Rattle.units.specs.Cells.{written_at};
ghost use Rattle.units.specs.Limits.{most_rooms, most_tasks, box_numbers, pair_numbers};
ghost use Rattle.plan_format.specs.Records.{plan_record, cal_record, task_record, after_record};
ghost use Rattle.plan.specs.Packed.{packed};
ghost use Rattle.plan_format.specs.Text.{Read, most_line, most_lines, comes, is_task_line, with_record, with_line};
ghost use Rattle.plan_format.specs.Reading.{box_of, most_packed};
ghost use Rattle.text.specs.Reading.{Begin};
ghost use Rattle.text.specs.Fields.{lf, first_at};
ghost use Rattle.plan_lines.specs.Inner.Scanning.{capacities_at, boxes_at, Kept, KeepsNumbers, with_heights, wrong_symbol_fault, symbols_fault};
ghost use Rattle.plan_lines.specs.Inner.Scanning.{section_number, counted, most_read, Holds, Follows, line_ended};
ghost use Rattle.plan_lines.specs.Pieces.{IsReady, IsRead, Takes, Ends, SameState};

mod packing;

use packing::{is_symbol, pack, packed_length};
use plan::{PER_BYTE, Refusal};
use plan_records::LineRecord;
use text::LF;
use text::fields::find;
use text::put::put_all;
use units::{Bounds, Duration, MOST_CALENDARS, MOST_ROOMS, Pair};

// The sections of a text, in their order; before the plan line it is at its start.
#[derive(Clone, Copy, PartialEq, Eq, PartialOrd, Ord)]
pub enum Section {
    Start,
    Plan,
    Calendars,
    Tasks,
    Pairs,
}

// What has been read of a text: the section reached, H, how many rooms, how many calendars, whether each calendar line has H symbols, how many
// symbols in all, how many bytes hold them, the index of the first symbol that is none, how many tasks and how many pairs. The flag is a fact of all
// lines so far, and says of no field whether it holds. That the counts stay below the text's bytes is no fact of a scan alone: the place in the text
// bounds what one line more may add.
#[derive(Clone, Copy)]
pub struct Scan {
    pub reached: Section,
    pub hours: u16,
    pub rooms: usize,
    pub calendars: usize,
    pub even: bool,
    pub symbols: usize,
    pub bytes: usize,
    pub wrong_symbol: Option<usize>,
    pub tasks: usize,
    pub pairs: usize,
}

// The most bytes of a line, with its LF, and the most lines of a text.
pub const MOST_LINE: usize = 8800;

pub const MOST_LINES: usize = 65535;

// The most bytes of a plan's calendars, packed and joined.
pub const MOST_PACKED: usize = MOST_CALENDARS
    * ((Duration::MOST as usize + PER_BYTE - 1) / PER_BYTE);

// Where each section of the store's numbers begins, after the tasks' calendars: work times, heights, boxes, capacities, pairs. Each has room for
// the most that a plan may have, the heights for the most tasks in each of the most rooms: a text's counts are known only at its end.
pub const WORK_TIMES: usize = Bounds::MOST;

pub const HEIGHTS: usize = 2 * Bounds::MOST;

pub const BOXES: usize = HEIGHTS + MOST_ROOMS * Bounds::MOST;

pub const CAPACITIES: usize = BOXES + Bounds::NUMBERS * Bounds::MOST;

pub const PAIRS: usize = CAPACITIES + MOST_ROOMS;

// The cells of all sections.
pub const CELLS: usize = PAIRS + Pair::NUMBERS * Pair::MOST;

// The store that a text is read into: its calendars, each packed by the length of its own line, joined, and the sections of numbers.
#[derive(Drop)]
pub struct Store {
    pub calendars: [u8; MOST_PACKED],
    pub cells: [u16; CELLS],
}

impl Store {
    pub const EMPTY: Store = Store {
        calendars: [0; MOST_PACKED],
        cells: [0; CELLS],
    };
}

// The numbers of a task line beside the heights: calendar and p, and all six bounds or none.
const SHORT: usize = 2;

const LONG: usize = SHORT + Bounds::NUMBERS;

// The most numbers of a line that can be needed. A line may have more: the cells keep the first of them, and the count of all goes beside the cells,
// since no slice of them can carry it.
const MOST_NUMBERS: usize = MOST_ROOMS + LONG;

// Before the first line.
const NOTHING: Scan = Scan {
    reached: Section::Start,
    hours: 0,
    rooms: 0,
    calendars: 0,
    even: true,
    symbols: 0,
    bytes: 0,
    wrong_symbol: None,
    tasks: 0,
    pairs: 0,
};

// Stores a calendar, packed, after those before it, if there is room.
fn store_calendar(calendars: &mut [u8; MOST_PACKED], at: usize, calendar: &[u8])
    requires { (at ≤ most_read) × (length calendar.now ≤ most_line) }
    ensures { (before : List ℕ) → at ≡ length before → Kept 0 most_packed before calendars.old
        → Kept 0 most_packed (before ++ packed calendar.now) calendars.new }
{
    let end = at + packed_length(calendar);
    if end <= MOST_PACKED {
        pack(calendar, &mut calendars[at..end]);
    }
}

// The index of the first symbol that is none, once the symbols of a calendar follow so many others.
fn first_wrong_symbol(before: Option<usize>, symbols: usize, calendar: &[u8]) -> Option<usize>
    requires { (symbols ≤ most_read) × (length calendar.now ≤ most_line) }
    ensures { (xs : List ℕ) → symbols ≡ length xs → wrong_symbol_fault before ≡ symbols_fault xs
        → wrong_symbol_fault result ≡ symbols_fault (xs ++ calendar.now) }
{
    if before.is_some() {
        return before;
    }
    for (i, symbol) in calendar.iter().enumerate() {
        if !is_symbol(*symbol) {
            return Some(symbols + i);
        }
    }
    None
}

// Stores the capacities, which follow H among a line's numbers, if there is room.
fn store_capacities(cells: &mut [u16; CELLS], rooms: usize, numbers: &[u16; MOST_NUMBERS])
    ensures { (ns : List ℕ) → Begin ns (1 + rooms) numbers.now → Kept capacities_at most_rooms (drop 1 ns) cells.new }
{
    if rooms <= MOST_ROOMS {
        put_all(cells, CAPACITIES, &numbers[1..1 + rooms]);
    }
}

// Stores a task's height in each room.
fn store_heights(cells: &mut [u16; CELLS], task: usize, rooms: usize, numbers: &[u16])
    requires { (task < most_tasks) × (rooms ≤ most_rooms) × (rooms + 2 ≤ length numbers.now) }
    ensures { cells.new ≡ with_heights task numbers.now rooms cells.old }
{
    let heights = &numbers[SHORT..SHORT + rooms];
    for (room, height) in heights.iter().enumerate() {
        cells[HEIGHTS + Bounds::MOST * room + task] = *height;
    }
}

// Stores a task's box: the bounds of its line, or all that its work time allows without overtime. A text may say 0 hours.
fn store_box(cells: &mut [u16; CELLS], task: usize, hours: u16, rooms: usize, numbers: &[u16])
    requires { (task < most_tasks) × (rooms ≤ most_rooms) × (rooms + 2 ≤ length numbers.now) }
    ensures { cells.new ≡ written_at (boxes_at + box_numbers * task) (box_of hours rooms numbers.now) cells.old }
{
    let at = BOXES + Bounds::NUMBERS * task;
    if numbers.len() == rooms + LONG {
        put_all(cells, at, &numbers[rooms + SHORT..]);
    } else {
        let bounds = [0, hours.saturating_sub(1), numbers[1], hours, 0, 0];
        put_all(cells, at, &bounds);
    }
}

// Stores a task of so many numbers after those before it, each number in its section, if there is room.
#[tactic(auto, using(crate::proofs::Numbering::line_size))]
fn store_task(cells: &mut [u16; CELLS], scan: Scan, count: usize, numbers: &[u16; MOST_NUMBERS])
    requires { is_task_line scan.rooms count ≡ true }
    ensures { (rs ns ps : List ℕ) (tasks : List (List ℕ)) → scan.rooms ≡ length rs → scan.tasks ≡ length tasks → Begin ns count numbers.now
        → KeepsNumbers scan.hours rs tasks ps cells.old → KeepsNumbers scan.hours rs (tasks ++ (ns ∷ [])) ps cells.new }
{
    let task = scan.tasks;
    if scan.rooms <= MOST_ROOMS && task < Bounds::MOST {
        let own = &numbers[..count];
        cells[task] = own[0];
        cells[WORK_TIMES + task] = own[1];
        store_heights(cells, task, scan.rooms, own);
        store_box(cells, task, scan.hours, scan.rooms, own);
    }
}

// Stores a pair after those before it, if there is room.
fn store_pair(cells: &mut [u16; CELLS], pairs: usize, numbers: &[u16; MOST_NUMBERS])
    ensures { (hours : ℕ) (rs ns ps : List ℕ) (tasks : List (List ℕ)) → pair_numbers * pairs ≡ length ps → Begin ns 2 numbers.now
        → KeepsNumbers hours rs tasks ps cells.old
        → KeepsNumbers hours rs tasks (ps ++ (get_or ns 0 0 ∷ get_or ns 1 0 ∷ [])) cells.new }
{
    if pairs < Pair::MOST {
        put_all(
            cells,
            PAIRS + Pair::NUMBERS * pairs,
            &[numbers[0], numbers[1]],
        );
    }
}

// Whether a record of a section may come where the text has reached another.
fn may_come(section: Section, reached: Section) -> bool
    ensures { result ≡ comes (section_number section) (section_number reached) }
{
    if section == Section::Plan {
        reached == Section::Start
    } else {
        Section::Plan <= reached && reached <= section
    }
}

// Whether a task line may have so many numbers where there are so many rooms.
#[tactic(auto, unfolding(plan_format::specs::Text::is_task_line), using(std::proofs::lemmas::Bool::Decides::nat_tests))]
fn is_task_line(rooms: usize, numbers: usize) -> bool
    ensures { result ≡ is_task_line rooms numbers }
{
    rooms <= numbers && matches!(numbers - rooms, SHORT | LONG)
}

// After a `plan` line of so many numbers.
fn with_plan(
    scan: Scan,
    count: usize,
    numbers: &[u16; MOST_NUMBERS],
    cells: &mut [u16; CELLS],
) -> Option<Scan>
    requires { 1 ≤ count }
    ensures { (r : Read) (n : ℕ) (calendars ns : List ℕ) → Begin ns count numbers.now → Holds r scan n calendars cells.old
        → Follows (with_record r (plan_record (get_or ns 0 0) (drop 1 ns))) result n calendars cells.new }
{
    if !may_come(Section::Plan, scan.reached) {
        return None;
    }
    let rooms = count - 1;
    store_capacities(cells, rooms, numbers);
    Some(Scan {
        reached: Section::Plan,
        hours: numbers[0],
        rooms,
        ..NOTHING
    })
}

// After a `cal` line.
fn with_calendar(scan: Scan, calendar: &[u8], calendars: &mut [u8; MOST_PACKED]) -> Option<Scan>
    requires { (counted scan ≤ most_read) × (scan.bytes ≤ scan.symbols) × (length calendar.now ≤ most_line) }
    ensures { (r : Read) (n : ℕ) (cells : List ℕ) → Holds r scan n calendars.old cells
        → Follows (with_record r (cal_record calendar.now)) result (n + (length calendar.now + 1)) calendars.new cells }
{
    if !may_come(Section::Calendars, scan.reached) {
        return None;
    }
    store_calendar(calendars, scan.bytes, calendar);
    Some(Scan {
        reached: Section::Calendars,
        calendars: scan.calendars + 1,
        even: scan.even && calendar.len() == scan.hours as usize,
        symbols: scan.symbols + calendar.len(),
        bytes: scan.bytes + packed_length(calendar),
        wrong_symbol: first_wrong_symbol(scan.wrong_symbol, scan.symbols, calendar),
        ..scan
    })
}

// After a `task` line of so many numbers.
fn with_task(
    scan: Scan,
    count: usize,
    numbers: &[u16; MOST_NUMBERS],
    cells: &mut [u16; CELLS],
) -> Option<Scan>
    requires { counted scan ≤ most_read }
    ensures { (r : Read) (n : ℕ) (calendars ns : List ℕ) → Begin ns count numbers.now → Holds r scan n calendars cells.old
        → Follows (with_record r (task_record ns)) result (n + 1) calendars cells.new }
{
    if !may_come(Section::Tasks, scan.reached) || !is_task_line(scan.rooms, count) {
        return None;
    }
    store_task(cells, scan, count, numbers);
    Some(Scan {
        reached: Section::Tasks,
        tasks: scan.tasks + 1,
        ..scan
    })
}

// After an `after` line.
fn with_pair(scan: Scan, numbers: &[u16; MOST_NUMBERS], cells: &mut [u16; CELLS]) -> Option<Scan>
    requires { counted scan ≤ most_read }
    ensures { (r : Read) (n : ℕ) (calendars ns : List ℕ) → Begin ns 2 numbers.now → Holds r scan n calendars cells.old
        → Follows (with_record r (after_record (get_or ns 0 0) (get_or ns 1 0))) result (n + 1) calendars cells.new }
{
    if !may_come(Section::Pairs, scan.reached) {
        return None;
    }
    store_pair(cells, scan.pairs, numbers);
    Some(Scan {
        reached: Section::Pairs,
        pairs: scan.pairs + 1,
        ..scan
    })
}

// After another line.
fn with_line(scan: Scan, line: &[u8], store: &mut Store) -> Option<Scan>
    requires { (counted scan ≤ most_read) × (scan.bytes ≤ scan.symbols) × (length line.now ≤ most_line) }
    ensures { (r : Read) (n : ℕ) → Holds r scan n store.old.calendars store.old.cells
        → Follows (with_line r line.now) result (n + (length line.now + 1)) store.new.calendars store.new.cells }
{
    let mut numbers = [0u16; MOST_NUMBERS];
    match plan_records::record_of(line, &mut numbers)? {
        LineRecord::Plan(count) => with_plan(scan, count, &numbers, &mut store.cells),
        LineRecord::Cal(calendar) => with_calendar(scan, calendar, &mut store.calendars),
        LineRecord::Task(count) => with_task(scan, count, &numbers, &mut store.cells),
        LineRecord::After => with_pair(scan, &numbers, &mut store.cells),
    }
}

// A text that is read piece by piece: what was read of it, in its store, the number of the line that is being read, the bytes of that line so far, if
// an earlier piece had any, and whether it or a line before it broke the rules.
#[derive(Drop)]
pub struct Reading {
    pub store: Store,
    scan: Scan,
    line: usize,
    held: [u8; MOST_LINE],
    length: usize,
    broken: bool,
}

impl Reading {
    // A text of which nothing has been read.
    pub fn begin() -> Reading
        ensures { IsRead [] result }
    {
        Reading {
            store: Store::EMPTY,
            scan: NOTHING,
            line: 1,
            held: [0; MOST_LINE],
            length: 0,
            broken: false,
        }
    }

    // After the line that is being read, which breaks the rules or leads to this scan.
    fn end_line(&mut self, read: Option<Scan>)
        requires { self.old.line ≤ most_lines }
        ensures { self.new ≡ line_ended self.old read }
    {
        match read {
            None => {
                self.broken = true;
            }
            Some(scan) => {
                self.scan = scan;
                self.line += 1;
                self.length = 0;
            }
        }
    }

    // The end of a line, without its LF. Where the whole line lies in one piece, it is read there.
    fn take_line(&mut self, part: &[u8])
        requires { IsReady self.old × (first_at lf part.now ≡ length part.now) }
        ensures { (text : List ℕ) → IsRead text self.old → IsRead (text ++ (part.now ++ (lf ∷ []))) self.new }
    {
        if self.broken {
            return;
        }
        if MOST_LINE - self.length <= part.len() || MOST_LINES < self.line {
            self.broken = true;
            return;
        }
        if self.length == 0 {
            let read = with_line(self.scan, part, &mut self.store);
            self.end_line(read);
            return;
        }
        let end = put_all(&mut self.held, self.length, part);
        let read = with_line(self.scan, &self.held[..end], &mut self.store);
        self.end_line(read);
    }

    // Bytes of a line that goes on.
    fn hold(&mut self, part: &[u8])
        requires { IsReady self.old × (first_at lf part.now ≡ length part.now) }
        ensures { (text : List ℕ) → IsRead text self.old → IsRead (text ++ part.now) self.new }
    {
        if self.broken {
            return;
        }
        if MOST_LINE - self.length <= part.len() {
            self.broken = true;
            return;
        }
        self.length = put_all(&mut self.held, self.length, part);
    }

    // More of the text. The state after two pieces is that after their bytes joined.
    pub fn take(&mut self, bytes: &[u8])
        requires { IsReady self.old }
        ensures takes { Takes self.old bytes.now self.new }
        ensures pieces { (one two : List ℕ) (between other : Reading) → bytes.now ≡ one ++ two → Takes self.old one between → Takes between two other
            → SameState self.new other }
    {
        let mut rest = bytes;
        while let Some(end) = find(rest, LF) {
            self.take_line(&rest[..end]);
            // No later line changes what a text that broke the rules comes to.
            if self.broken {
                return;
            }
            rest = &rest[end + 1..];
        }
        self.hold(rest);
    }

    // The text has ended: the first line that breaks the rules, or all that it holds.
    pub fn finish(&self) -> Result<Scan, Refusal>
        requires { IsReady self.now }
        ensures { Ends self.now result }
    {
        if !self.broken && Section::Plan <= self.scan.reached && self.length == 0 {
            Ok(self.scan)
        } else {
            Err(Refusal::Malformed(self.line))
        }
    }
}
