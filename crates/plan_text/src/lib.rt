// Plan text: reading a plan.
#![tactic(auto)]

ghost use Rattle.std.specs.Prelude.{true, List, ◌≡◌, ◌≤◌, ◌++◌, ℕ, length, IfOk};
ghost use Rattle.units.specs.Cells.{written};
ghost use Rattle.units.specs.Lists.{joined};
ghost use Rattle.units.specs.Choice.{◌or_else◌};
ghost use Rattle.units.specs.Limits.{most_rooms, most_tasks, most_pairs};
ghost use Rattle.plan.specs.Refusals.{tested_fault};
ghost use Rattle.plan.specs.Lent.{packed_in, plan_in};
ghost use Rattle.plan.specs.Passed.{Passed};
ghost use Rattle.plan_format.specs.Text.{Read};
ghost use Rattle.plan_format.specs.Reading.{is_enough, line_fault, read_fault, zeros, end_with, read_plan};
ghost use Rattle.plan_format.specs.ShortTexts.{AsBefore};
ghost use Rattle.plan_lines.specs.Inner.Scanning.{section, stored_heights, stored_plan, stored_boxes, symbols_fault, most_read};
ghost use Rattle.plan_lines.specs.Inner.Scanning.{Holds, Stored};
ghost use Rattle.plan_lines.specs.Pieces.{IsReady, IsRead};
ghost use Rattle.plan_text.specs.Entry.{reading_answer};

use plan::{Plan, Refusal};
use plan_lines::{BOXES, CAPACITIES, CELLS, HEIGHTS, PAIRS, Reading, Scan, Store, WORK_TIMES};
use text::put::put_all;
use units::{Bounds, CalendarNumber, Duration, MOST_ROOMS, Pair, RoomNumber};

mod memory;
pub mod source;

pub use memory::PlanMemory;

// What was read of a plan: H, and how many rooms, calendars, tasks and pairs.
#[derive(Clone, Copy, PartialEq, Eq)]
pub struct PlanRead {
    pub hours: u16,
    pub rooms: usize,
    pub calendars: usize,
    pub tasks: usize,
    pub pairs: usize,
}

// The most bytes of a plan's calendars, packed and joined.
pub use plan_lines::MOST_PACKED;

// The most heights of a plan, one a task in each room.
pub const MOST_HEIGHTS: usize = MOST_ROOMS * Bounds::MOST;

// The most numbers of the pairs of a plan, two a pair.
pub const MOST_PAIRED: usize = Pair::NUMBERS * Pair::MOST;

// The most bounds of a plan, six a task.
pub const MOST_BOUNDS: usize = Bounds::NUMBERS * Bounds::MOST;

// Whether this memory is enough for the most that a plan can hold.
// The lent slices stay parameters here and in the functions that write them, as C lends them: each would open a struct of them at once, and one that
// holds what is written would have to promise that it holds the same memory.
#[tactic(auto, unfolding(plan_format::specs::Reading::is_enough, plan::specs::Packed::bytes_of))]
fn is_enough(
    capacities: &[u16],
    calendars: &[u8],
    task_calendars: &[u16],
    work_times: &[u16],
    heights: &[u16],
    pairs: &[u16],
    boxes: &[u16],
) -> bool
    ensures { result ≡ is_enough capacities.now calendars.now task_calendars.now work_times.now heights.now pairs.now boxes.now }
{
    MOST_ROOMS <= capacities.len()
        && MOST_PACKED <= calendars.len()
        && Bounds::MOST <= task_calendars.len()
        && Bounds::MOST <= work_times.len()
        && MOST_HEIGHTS <= heights.len()
        && MOST_PAIRED <= pairs.len()
        && MOST_BOUNDS <= boxes.len()
}

// 2 and 3, each calendar line by itself; then 4.
fn test_lines(scan: Scan) -> Result<(), Refusal>
    ensures { (r : Read) (calendars cells : List ℕ) → Holds r scan most_read calendars cells
        → tested_fault result ≡ (line_fault r or_else symbols_fault (joined r.calendars)) }
{
    Duration::of_plan(scan.hours as usize).ok_or(Refusal::Hours)?;
    if !CalendarNumber::is_count(scan.calendars) || !scan.even {
        return Err(Refusal::Calendars);
    }
    match scan.wrong_symbol {
        None => Ok(()),
        Some(index) => Err(Refusal::Symbol(index)),
    }
}

// The heights that are stored of so many tasks in so many rooms, gathered without the gaps between the rooms. The limits stand in the contracts of
// three functions here, which one call leads through: a struct of the two counts would be made for that call alone.
fn gather_heights<'a>(
    rooms: usize,
    tasks: usize,
    cells: &[u16; CELLS],
    heights: &'a mut [u16; MOST_HEIGHTS],
) -> &'a [u16]
    requires { (rooms ≤ most_rooms) × (tasks ≤ most_tasks) }
    ensures { result.now ≡ stored_heights rooms tasks cells.now }
{
    let mut end = 0;
    for room in cells[HEIGHTS..HEIGHTS + Bounds::MOST * rooms].chunks(Bounds::MOST) {
        end = put_all(heights, end, &room[..tasks]);
    }
    &heights[..end]
}

// The boxes that are stored of so many tasks.
fn stored_boxes(tasks: usize, cells: &[u16; CELLS]) -> &[u16]
    requires { tasks ≤ most_tasks }
    ensures { result.now ≡ stored_boxes tasks cells.now }
{
    &cells[BOXES..BOXES + Bounds::NUMBERS * tasks]
}

// The plan that is stored, of as many rooms, tasks and pairs as there is room for, with its calendars' bytes.
fn stored_plan<'a>(
    scan: Scan,
    calendars: &'a [u8],
    cells: &'a [u16; CELLS],
    gathered: &'a mut [u16; MOST_HEIGHTS],
) -> Plan<'a>
    requires { (scan.rooms ≤ most_rooms) × (scan.tasks ≤ most_tasks) × (scan.pairs ≤ most_pairs) }
    ensures { packed_in result ≡ stored_plan scan.hours scan.rooms scan.tasks scan.pairs calendars.now cells.now }
{
    let heights = gather_heights(scan.rooms, scan.tasks, cells, gathered);
    Plan::new(
        scan.hours,
        &cells[CAPACITIES..CAPACITIES + scan.rooms],
        calendars,
        &cells[..scan.tasks],
        &cells[WORK_TIMES..WORK_TIMES + scan.tasks],
        heights,
        &cells[PAIRS..PAIRS + Pair::NUMBERS * scan.pairs],
    )
}

// The plan of a whole text, if it passes the tests. A text may have more tasks, pairs and rooms than are stored.
fn tested_plan<'a>(
    scan: Scan,
    store: &'a Store,
    gathered: &'a mut [u16; MOST_HEIGHTS],
) -> Result<Plan<'a>, Refusal>
    requires { Stored scan store.now.calendars store.now.cells }
    ensures tests { (r : Read) → Holds r scan most_read store.now.calendars store.now.cells → tested_fault result ≡ read_fault true r }
    ensures plan { let calendars = section 0 scan.bytes store.now.calendars in
        IfOk result (λ p. packed_in p ≡ stored_plan scan.hours scan.rooms scan.tasks scan.pairs calendars store.now.cells) }
    ensures passes { IfOk result (λ p. Passed (plan_in p) (stored_boxes scan.tasks store.now.cells)) }
{
    test_lines(scan)?;
    if !Bounds::is_count(scan.tasks) {
        return Err(Refusal::Tasks);
    }
    if !Pair::is_count(scan.pairs) {
        return Err(Refusal::Pairs);
    }
    if !RoomNumber::is_count(scan.rooms) {
        return Err(Refusal::Rooms);
    }
    let calendars = &store.calendars[..scan.bytes];
    let plan = stored_plan(scan, calendars, &store.cells, gathered);
    input::test_plan(&plan, stored_boxes(scan.tasks, &store.cells))?;
    Ok(plan)
}

// Stores a plan in the memory lent, which has room for it. Cells past the plan's own are untouched.
#[tactic(auto, using(units::proofs::Cells::written_start))]
fn store_plan(
    plan: &Plan,
    plan_boxes: &[u16],
    capacities: &mut [u16],
    calendars: &mut [u8],
    task_calendars: &mut [u16],
    work_times: &mut [u16],
    heights: &mut [u16],
    pairs: &mut [u16],
    boxes: &mut [u16],
)
    requires { (length plan.now.capacities.now ≤ length capacities.old)
        × (length plan.now.shifts.calendars.now ≤ length calendars.old)
        × (length plan.now.shifts.task_calendars.now ≤ length task_calendars.old)
        × (length plan.now.shifts.work_times.now ≤ length work_times.old)
        × (length plan.now.heights.now ≤ length heights.old)
        × (length plan.now.pairs.now ≤ length pairs.old)
        × (length plan_boxes.now ≤ length boxes.old) }
    ensures { (capacities.new ≡ written plan.now.capacities.now capacities.old)
        × (calendars.new ≡ written plan.now.shifts.calendars.now calendars.old)
        × (task_calendars.new ≡ written plan.now.shifts.task_calendars.now task_calendars.old)
        × (work_times.new ≡ written plan.now.shifts.work_times.now work_times.old)
        × (heights.new ≡ written plan.now.heights.now heights.old)
        × (pairs.new ≡ written plan.now.pairs.now pairs.old)
        × (boxes.new ≡ written plan_boxes.now boxes.old) }
{
    put_all(capacities, 0, plan.capacities);
    put_all(calendars, 0, plan.shifts.calendars);
    put_all(task_calendars, 0, plan.shifts.task_calendars);
    put_all(work_times, 0, plan.shifts.work_times);
    put_all(heights, 0, plan.heights);
    put_all(pairs, 0, plan.pairs);
    put_all(boxes, 0, plan_boxes);
}

// Leaves all memory lent 0.
fn clear_memory(
    capacities: &mut [u16],
    calendars: &mut [u8],
    task_calendars: &mut [u16],
    work_times: &mut [u16],
    heights: &mut [u16],
    pairs: &mut [u16],
    boxes: &mut [u16],
)
    ensures { (capacities.new ≡ zeros capacities.old)
        × (calendars.new ≡ zeros calendars.old)
        × (task_calendars.new ≡ zeros task_calendars.old)
        × (work_times.new ≡ zeros work_times.old)
        × (heights.new ≡ zeros heights.old)
        × (pairs.new ≡ zeros pairs.old)
        × (boxes.new ≡ zeros boxes.old) }
{
    capacities.fill(0);
    calendars.fill(0);
    task_calendars.fill(0);
    work_times.fill(0);
    heights.fill(0);
    pairs.fill(0);
    boxes.fill(0);
}

// Ends the reading of a text: its plan, in the memory lent, if it passes every test. Nothing is written before it is known that
// the answer is not 31.
pub fn finish_plan(
    reading: &Reading,
    capacities: &mut [u16],
    calendars: &mut [u8],
    task_calendars: &mut [u16],
    work_times: &mut [u16],
    heights: &mut [u16],
    pairs: &mut [u16],
    boxes: &mut [u16],
) -> Result<PlanRead, Refusal>
    requires { IsReady reading.now }
    ensures { (text : List ℕ) → IsRead text reading.now
        → end_with (reading_answer result) capacities.new calendars.new task_calendars.new work_times.new heights.new pairs.new boxes.new
        ≡ read_plan capacities.old calendars.old task_calendars.old work_times.old heights.old pairs.old boxes.old text }
{
    let scan = match reading.finish() {
        Ok(scan) => scan,
        Err(refusal) => {
            clear_memory(
                capacities,
                calendars,
                task_calendars,
                work_times,
                heights,
                pairs,
                boxes,
            );
            return Err(refusal);
        }
    };
    if !is_enough(
        capacities,
        calendars,
        task_calendars,
        work_times,
        heights,
        pairs,
        boxes,
    ) {
        return Err(Refusal::MemorySize);
    }
    let mut gathered = [0u16; MOST_HEIGHTS];
    match tested_plan(scan, &reading.store, &mut gathered) {
        Ok(plan) => {
            store_plan(
                &plan,
                stored_boxes(scan.tasks, &reading.store.cells),
                capacities,
                calendars,
                task_calendars,
                work_times,
                heights,
                pairs,
                boxes,
            );
            Ok(PlanRead {
                hours: scan.hours,
                rooms: scan.rooms,
                calendars: scan.calendars,
                tasks: scan.tasks,
                pairs: scan.pairs,
            })
        }
        Err(refusal) => {
            clear_memory(
                capacities,
                calendars,
                task_calendars,
                work_times,
                heights,
                pairs,
                boxes,
            );
            Err(refusal)
        }
    }
}

// Reads a plan text of any length, as one piece. A text of before is read as the same plan.
pub fn read_plan(
    text: &[u8],
    capacities: &mut [u16],
    calendars: &mut [u8],
    task_calendars: &mut [u16],
    work_times: &mut [u16],
    heights: &mut [u16],
    pairs: &mut [u16],
    boxes: &mut [u16],
) -> Result<PlanRead, Refusal>
    ensures answer { end_with (reading_answer result) capacities.new calendars.new task_calendars.new work_times.new heights.new pairs.new boxes.new
        ≡ read_plan capacities.old calendars.old task_calendars.old work_times.old heights.old pairs.old boxes.old text.now }
    ensures before { AsBefore }
{
    let mut reading = Reading::begin();
    reading.take(text);
    finish_plan(
        &reading,
        capacities,
        calendars,
        task_calendars,
        work_times,
        heights,
        pairs,
        boxes,
    )
}
