// From plan text to the listing: reads the plan, filters it with room for 2,048 steps, and lists the run.
#![tactic(auto)]

ghost use Rattle.std.specs.Io.KnownBytes.{Consumes, IsAtEnd};
ghost use Rattle.std.specs.Prelude.{◌≡◌, ◌*◌, ◌≤◌, length, IfOk, List, ℕ};
ghost use Rattle.units.specs.Limits.{most_tasks, box_numbers};
ghost use Rattle.units.specs.Cells.{written};
ghost use Rattle.plan.specs.Plan.{task_count};
ghost use Rattle.plan.specs.Lent.{packed_in, plan_in};
ghost use Rattle.plan_lines.specs.Pieces.{IsReady, IsRead};
ghost use Rattle.text_listing.specs.Program.{plan_listing, listing_of_text};

use listing::{ROOM, list_refusal, list_run};
use plan::Plan;
use plan_lines::Reading;
use plan_text::source::read_all;
use plan_text::{MOST_BOUNDS, PlanMemory};
use std::io;
use std::io::Read;
use units::Bounds;

// The steps that the log has room for.
const STEPS: usize = 2048;

// The listing of a plan that was read: its run, with an empty log.
fn list_plan(plan: &Plan, boxes: &mut [u16], out: &mut [u8; ROOM]) -> usize
    requires { let P = plan_in plan.now in (task_count P ≤ most_tasks) × (length boxes.old ≡ box_numbers * task_count P) }
    ensures { let L = plan_listing (packed_in plan.now) boxes.old in (result ≡ length L) × (out.new ≡ written L out.old) }
{
    // The log is three slices, as 01 orders of the core.
    let mut log_kinds = [0u8; STEPS];
    let mut log_tasks = [0u16; STEPS];
    let mut log_hours = [0u16; STEPS];
    let answer = propagation::filter::filter(
        plan,
        boxes,
        &mut log_kinds,
        &mut log_tasks,
        &mut log_hours,
    );
    list_run(answer, boxes, plan.tasks(), out)
}

// The listing of a text that was read by pieces and has ended.
pub fn list_reading(reading: &Reading, out: &mut [u8; ROOM]) -> usize
    requires { IsReady reading.now }
    ensures { (text : List ℕ) → IsRead text reading.now → let L = listing_of_text text in (result ≡ length L) × (out.new ≡ written L out.old) }
{
    let mut memory = PlanMemory::EMPTY;
    let mut boxes = [0u16; MOST_BOUNDS];
    match memory.finish(reading, &mut boxes) {
        Err(refusal) => list_refusal(refusal, out),
        Ok(read) => list_plan(
            &memory.plan(read),
            &mut boxes[..Bounds::NUMBERS * read.tasks],
            out,
        ),
    }
}

// The listing of a text, and its length; the bytes past it are untouched.
pub fn list_text(text: &[u8], out: &mut [u8; ROOM]) -> usize
    ensures { let L = listing_of_text text.now in (result ≡ length L) × (out.new ≡ written L out.old) }
{
    let mut reading = Reading::begin();
    reading.take(text);
    list_reading(&reading, out)
}

// The same of an input, which is read until it ends, in bounded memory: of a reader that says what it has left, the listing of just that.
pub fn list_input<R: Read>(input: &mut R, out: &mut [u8; ROOM]) -> io::Result<usize>
    ensures listing { IfOk result (λ n. (text : List ℕ) × Consumes (R.remaining input.old) (R.remaining input.new) text
        × (n ≡ length (listing_of_text text)) × (out.new ≡ written (listing_of_text text) out.old)) }
    ensures end { IfOk result (λ _. IsAtEnd (R.remaining input.new)) }
{
    let mut reading = Reading::begin();
    read_all(input, &mut reading)?;
    Ok(list_reading(&reading, out))
}
