// Plan text: writing a plan.
#![tactic(auto)]

ghost use Rattle.std.specs.Prelude.{[], ◌∷◌, ◌≡◌, ℕ, ◌+◌, ◌*◌, ◌/◌, ◌≤◌, ◌<◌, length, get_or, take};
ghost use Rattle.units.specs.Limits.{most_rooms};
ghost use Rattle.text.specs.Lines.{ended};
ghost use Rattle.text.specs.Putting.{Put};
ghost use Rattle.plan.specs.Plan.{room_count, task_count, pair_count, calendar_count, pair_of};
ghost use Rattle.plan.specs.Refusals.{answered, answer_of, tested_fault};
ghost use Rattle.plan.specs.Lent.{plan_in, packed_in};
ghost use Rattle.plan.specs.Faults.{is_right_size};
ghost use Rattle.plan.specs.Over.{SameOverLetters, memory_fault};
ghost use Rattle.plan.specs.Packed.{letter_of};
ghost use Rattle.plan.specs.Calendars.{letters_in};
ghost use Rattle.plan_format.specs.Records.{cal_record, record_line};
ghost use Rattle.plan_format.specs.Writing.{text_of_plan, most_text, write_end, write_plan, write_packed, ReadsBack};
ghost use Rattle.plan_writing.specs.Inner.Sections.{calendars_text, numbers_at, tasks_text, pairs_text};

use input::Tested;
use plan::{Calendar, HourCode, PER_BYTE, Plan, Refusal, bounds_at, box_cells, first_symbol};
use text::LF;
use text::lengths::line_length;
use text::put::{put_all, put_byte, put_line};
use units::{Bounds, MOST_ROOMS, Pair};

// How many numbers a line has at most: of the plan H and a capacity for each room, of a task its calendar, its work time, a height in each room and
// six bounds.
const PLAN_NUMBERS: usize = 1 + MOST_ROOMS;

const TASK_NUMBERS: usize = 2 + MOST_ROOMS + Bounds::NUMBERS;

// The numbers of the plan line, in the memory lent.
fn plan_numbers<'a>(plan: &Plan, numbers: &'a mut [usize; PLAN_NUMBERS]) -> &'a [usize]
    requires { room_count (plan_in plan.now) ≤ most_rooms }
    ensures { let P = plan_in plan.now in result.now ≡ P.shifts.hours ∷ P.capacities }
{
    numbers[0] = plan.shifts.hours.0 as usize;
    for (room, capacity) in plan.capacities.iter().enumerate() {
        numbers[room + 1] = *capacity as usize;
    }
    &numbers[..plan.rooms() + 1]
}

// The numbers of the line of task i, in the memory lent: calendar, work time, the height in each room, and the bounds.
fn task_numbers<'a>(
    tested: &Tested,
    i: usize,
    numbers: &'a mut [usize; TASK_NUMBERS],
) -> &'a [usize]
    requires { i < task_count (plan_in tested.now.plan.now) }
    ensures { result.now ≡ numbers_at (plan_in tested.now.plan.now) tested.now.boxes.now i }
{
    let plan = tested.plan;
    numbers[0] = plan.shifts.task_calendars[i] as usize;
    numbers[1] = plan.shifts.work_times[i] as usize;
    // By number: a room's heights are a part of the lent ones.
    for room in 0..plan.rooms() {
        numbers[room + 2] = plan.heights_of(room)[i] as usize;
    }
    let b = bounds_at(tested.boxes, i);
    let bounds = box_cells(b).map(usize::from);
    let end = put_all(numbers, plan.rooms() + 2, &bounds);
    &numbers[..end]
}

// How many bytes the tasks' lines have, 350 a line at most.
#[tactic(auto, using(crate::proofs::Sections::tasks_counted), unfolding(plan_format::specs::Writing::task_records))]
fn tasks_length(tested: &Tested) -> usize
    ensures { let P = plan_in tested.now.plan.now in
        (result ≡ length (tasks_text P tested.now.boxes.now (task_count P))) × (result ≤ 350 * task_count P) }
{
    let mut numbers = [0; TASK_NUMBERS];
    let mut bytes = 0;
    // By number: what a task has lies in several lent slices.
    for i in 0..tested.plan.tasks() {
        bytes += line_length(b"task", task_numbers(tested, i, &mut numbers));
    }
    bytes
}

// The numbers of the line of pair k: the earlier task, then the later.
fn numbers_of_pair(tested: &Tested, k: usize) -> [usize; Pair::NUMBERS]
    requires { k < pair_count (plan_in tested.now.plan.now) }
    ensures { let x = pair_of (plan_in tested.now.plan.now) k in result ≡ x.earlier ∷ x.later ∷ [] }
{
    let pair = tested.plan.pair_of(k);
    [pair.earlier as usize, pair.later as usize]
}

// How many bytes the pairs' lines have, 350 a line at most.
#[tactic(auto, using(crate::proofs::Sections::pairs_counted), unfolding(plan_format::specs::Writing::after_records))]
fn pairs_length(tested: &Tested) -> usize
    ensures { let P = plan_in tested.now.plan.now in
        (result ≡ length (pairs_text P (pair_count P))) × (result ≤ 350 * pair_count P) }
{
    let mut bytes = 0;
    // By number: a pair is two numbers of a lent slice.
    for k in 0..tested.plan.pair_count() {
        bytes += line_length(b"after", &numbers_of_pair(tested, k));
    }
    bytes
}

// What a calendar's line has beside its letters: the word, a tab and LF.
const CALENDAR_FRAME: usize = 5;

// How many bytes the calendars' lines have. Their letters are counted by adding H for each calendar, since nothing in memory has one cell a letter.
#[tactic(auto, using(crate::proofs::Sections::calendars_counted))]
fn calendars_length(tested: &Tested) -> usize
    ensures { let S = (plan_in tested.now.plan.now).shifts in
        (result ≡ length (calendars_text S (calendar_count S))) × (result ≤ 140624) }
{
    let shifts = &tested.plan.shifts;
    let calendars = shifts.calendar_count();
    first_symbol(calendars as u16, shifts.hours) + CALENDAR_FRAME * calendars
}

// How many bytes the plan's text has.
#[tactic(auto, using(crate::proofs::Sections::sections_length))]
fn text_length(tested: &Tested) -> usize
    ensures { result ≡ length (text_of_plan (plan_in tested.now.plan.now) tested.now.boxes.now) }
{
    let mut numbers = [0; PLAN_NUMBERS];
    let first = line_length(b"plan", plan_numbers(tested.plan, &mut numbers));
    first + calendars_length(tested) + tasks_length(tested) + pairs_length(tested)
}

// The letter of an hour. A code's two bits are counts, of which one at most is 1: so no table is read, and the compiler takes several hours at once.
#[tactic(auto, using(crate::proofs::Lettering::letter_made))]
fn letter(code: HourCode) -> u8
    ensures { result ≡ letter_of code.number }
{
    b'c' + (b'r' - b'c') * (code.number % 2) + (b'o' - b'c') * (code.number / 2)
}

// The letters of the hours of a calendar's whole bytes. The four of a byte are put in one turn, so that it is read once.
fn put_whole_bytes(out: &mut [u8], at: usize, calendar: &Calendar) -> usize
    requires { at + length (letters_in calendar.now) ≤ length out.old }
    ensures { let cal = letters_in calendar.now in Put (take (length cal / 4 * 4) cal) at out.old result out.new }
{
    let mut end = at;
    // By number, as the hours of a byte are found.
    for byte in 0..calendar.len() / PER_BYTE {
        let first = byte * PER_BYTE;
        let one = put_byte(out, end, letter(calendar.code_at(first)));
        let two = put_byte(out, one, letter(calendar.code_at(first + 1)));
        let three = put_byte(out, two, letter(calendar.code_at(first + 2)));
        end = put_byte(out, three, letter(calendar.code_at(first + 3)));
    }
    end
}

// The letters of a calendar, one a byte.
fn put_letters(out: &mut [u8], at: usize, calendar: &Calendar) -> usize
    requires { at + length (letters_in calendar.now) ≤ length out.old }
    ensures { Put (letters_in calendar.now) at out.old result out.new }
{
    let first = calendar.len() / PER_BYTE * PER_BYTE;
    let mut end = put_whole_bytes(out, at, calendar);
    // By number: an hour's code is two bits of a byte.
    for i in 0..calendar.len() - first {
        end = put_byte(out, end, letter(calendar.code_at(first + i)));
    }
    end
}

// The line of a calendar.
#[tactic(auto, using(crate::proofs::Sections::calendar_counted))]
fn put_calendar(out: &mut [u8], at: usize, calendar: &Calendar) -> usize
    requires { at + length (ended (record_line (cal_record (letters_in calendar.now)))) ≤ length out.old }
    ensures { Put (ended (record_line (cal_record (letters_in calendar.now)))) at out.old result out.new }
{
    let letters = put_all(out, at, b"cal\t");
    let end = put_letters(out, letters, calendar);
    put_byte(out, end, LF)
}

// The lines of the calendars.
fn put_calendars(out: &mut [u8], at: usize, tested: &Tested) -> usize
    requires { let S = (plan_in tested.now.plan.now).shifts in at + length (calendars_text S (calendar_count S)) ≤ length out.old }
    ensures { let S = (plan_in tested.now.plan.now).shifts in Put (calendars_text S (calendar_count S)) at out.old result out.new }
{
    let shifts = tested.plan.shifts;
    let mut end = at;
    // By number, as the plan's own method finds them: chunks of the bytes would say here again how the calendars lie.
    for k in 0..shifts.calendar_count() {
        end = put_calendar(out, end, &shifts.calendar_at(k as u16));
    }
    end
}

// The lines of the tasks.
fn put_tasks(out: &mut [u8], at: usize, tested: &Tested) -> usize
    requires { let P = plan_in tested.now.plan.now in
        at + length (tasks_text P tested.now.boxes.now (task_count P)) ≤ length out.old }
    ensures { let P = plan_in tested.now.plan.now in
        Put (tasks_text P tested.now.boxes.now (task_count P)) at out.old result out.new }
{
    let mut numbers = [0; TASK_NUMBERS];
    let mut end = at;
    // By number, as `tasks_length` counts them: what a task has lies in several lent slices.
    for i in 0..tested.plan.tasks() {
        end = put_line(out, end, b"task", task_numbers(tested, i, &mut numbers));
    }
    end
}

// The lines of the pairs.
fn put_pairs(out: &mut [u8], at: usize, tested: &Tested) -> usize
    requires { let P = plan_in tested.now.plan.now in at + length (pairs_text P (pair_count P)) ≤ length out.old }
    ensures { let P = plan_in tested.now.plan.now in Put (pairs_text P (pair_count P)) at out.old result out.new }
{
    let mut end = at;
    // By number, as `pairs_length` counts them.
    for k in 0..tested.plan.pair_count() {
        end = put_line(out, end, b"after", &numbers_of_pair(tested, k));
    }
    end
}

// The plan's text: the plan line, the calendars' lines, the tasks' lines, the pairs' lines.
#[tactic(auto, using(crate::proofs::Sections::sections_length))]
fn put_text(tested: &Tested, out: &mut [u8]) -> usize
    requires { length (text_of_plan (plan_in tested.now.plan.now) tested.now.boxes.now) ≤ length out.old }
    ensures { Put (text_of_plan (plan_in tested.now.plan.now) tested.now.boxes.now) 0 out.old result out.new }
{
    let plan = tested.plan;
    let mut numbers = [0; PLAN_NUMBERS];
    let first = put_line(out, 0, b"plan", plan_numbers(plan, &mut numbers));
    let middle = put_calendars(out, first, tested);
    let last = put_tasks(out, middle, tested);
    put_pairs(out, last, tested)
}

// What a byte is, which the type says of a slice alone and not of one that lies in a plan.
fn are_bytes(bytes: &[u8])
    ensures { (i : ℕ) → get_or bytes.now i 0 < 256 }
{}

// Writes a plan as text, every task line with all its bounds, and answers how long the text is. The memory lent stays as it is until the plan has
// passed every test and its text is known to fit; the bytes past the text are untouched. Of memory for the longest text, only the tests refuse.
pub fn write_plan(plan: &Plan, boxes: &[u16], out: &mut [u8]) -> Result<usize, Refusal>
    ensures answer { write_end (answer_of result) out.new ≡ write_packed (packed_in plan.now) boxes.now out.old }
    ensures back { (n : ℕ) → answer_of result ≡ answered n → ReadsBack (packed_in plan.now) boxes.now (take n out.new) }
    ensures room { most_text ≤ length out.old
        → tested_fault result ≡ memory_fault (is_right_size (plan_in plan.now) boxes.now) (packed_in plan.now) boxes.now }
    ensures letters { SameOverLetters (packed_in plan.now) (write_end (answer_of result) out.new) (λ Q. write_plan Q boxes.now out.old) }
{
    are_bytes(plan.shifts.calendars);
    let tested = input::tested_input(plan, boxes)?;
    if out.len() < text_length(&tested) {
        return Err(Refusal::OutputSize);
    }
    Ok(put_text(&tested, out))
}
