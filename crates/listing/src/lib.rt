// The listing that the program prints.
#![tactic(auto)]

ghost use Rattle.std.specs.Prelude.{◌∷◌, ◌≡◌, ◌+◌, ◌*◌, ◌≤◌, ◌<◌, length};
ghost use Rattle.units.specs.Limits.{most_tasks, box_numbers};
ghost use Rattle.units.specs.Cells.{written};
ghost use Rattle.plan.specs.Boxes.{box_cells};
ghost use Rattle.plan.specs.Refusals.{fault_of};
ghost use Rattle.steps.specs.Entry.{filter_answer};
ghost use Rattle.text.specs.Putting.{Put};
ghost use Rattle.listing.specs.Endings.{word_of};
ghost use Rattle.listing.specs.Listing.{task_lines, task_line, refused_line, listing};

use plan::{Fault, Refusal, bounds_at, box_cells};
use steps::{Ending, Filtered};
use text::put::put_line;
use units::Bounds;

// Bytes that hold every listing: a first line of at most 35, and a line of at most 47 for each task. A listing is put into an array of so many, and
// its length answered, since there is no heap and the caller lends the memory.
pub const ROOM: usize = 4096;

// The numbers of a task's line: the task's own, and the six bounds.
fn task_numbers(i: usize, b: Bounds) -> [usize; 1 + Bounds::NUMBERS]
    ensures { result ≡ i ∷ box_cells b }
{
    let mut numbers = [i; 1 + Bounds::NUMBERS];
    numbers[1..].copy_from_slice(&box_cells(b).map(usize::from));
    numbers
}

// The line of task i, 47 bytes at most.
fn put_task(out: &mut [u8], at: usize, boxes: &[u16], i: usize) -> usize
    requires { (at + 47 ≤ length out.old) × (i < most_tasks) × (box_numbers * i + box_numbers ≤ length boxes.now) }
    ensures put { Put (task_line boxes.now i) at out.old result out.new }
    ensures short { result ≤ at + 47 }
{
    put_line(out, at, b"task", &task_numbers(i, bounds_at(boxes, i)))
}

// The lines of the first tasks.
fn put_tasks(out: &mut [u8], at: usize, boxes: &[u16], tasks: usize) -> usize
    requires { (at + 47 * tasks ≤ length out.old) × (tasks ≤ most_tasks) × (box_numbers * tasks ≤ length boxes.now) }
    ensures { Put (task_lines boxes.now tasks) at out.old result out.new }
{
    let mut end = at;
    // By number, which is printed; where a task's box lies is said in `bounds_at` alone.
    for i in 0..tasks {
        end = put_task(out, end, boxes, i);
    }
    end
}

// The one line of a refusal, 35 bytes at most; the bytes past it are untouched.
#[tactic(auto, using(crate::proofs::Lines::widths))]
pub fn list_refusal(refusal: Refusal, out: &mut [u8; ROOM]) -> usize
    ensures { let L = refused_line (fault_of refusal) in (result ≡ length L) × (out.new ≡ written L out.old) }
{
    let fault = Fault::from(refusal);
    put_line(out, 0, b"refused", &[fault.number as usize, fault.place])
}

// The word that opens the listing of a run.
pub fn ending_word(ending: Ending) -> &'static [u8]
    ensures { (result.now ≡ word_of ending) × (length result.now ≤ 10) }
{
    match ending {
        Ending::Settled => b"settled",
        Ending::Impossible => b"impossible",
        Ending::NoRoom => b"room",
    }
}

// What a run of the filter answered, and the boxes that it left: a first line with the count, then the tasks; or the line of a refusal. The bytes
// past the listing are untouched.
#[tactic(auto, using(crate::proofs::Lines::widths), unfolding(crate::specs::Listing::listing))]
pub fn list_run(
    answer: Result<Filtered, Refusal>,
    boxes: &[u16],
    tasks: usize,
    out: &mut [u8; ROOM],
) -> usize
    requires { (tasks ≤ most_tasks) × (box_numbers * tasks ≤ length boxes.now) }
    ensures { let L = listing (filter_answer answer) boxes.now tasks in (result ≡ length L) × (out.new ≡ written L out.old) }
{
    match answer {
        Err(refusal) => list_refusal(refusal, out),
        Ok(run) => {
            let first = put_line(out, 0, ending_word(run.ending), &[run.count]);
            put_tasks(out, first, boxes, tasks)
        }
    }
}
