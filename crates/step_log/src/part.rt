// A part of a log: as many of its steps as `propagation` is called with at a time, by value, and what it makes of them.
ghost use Rattle.std.specs.Prelude.{◌≡◌, [], ◌∷◌, ◌++◌, ◌+◌, ◌-◌, ◌^◌, ◌≤◌, ◌<◌, min, Ok};
ghost use Rattle.plan.specs.Lent.{packed_in};
ghost use Rattle.steps.specs.Entry.{step_at, filter_answer};
ghost use Rattle.step_log.specs.Inner.Size.{part_size};

use plan::{Plan, Refusal};
use steps::{Accepted, Ending, Filtered, Step};

// The kinds, the tasks and the hours of its steps stand in the first cells, as many as the count: what the core is lent as three number slices (01),
// in memory of a fixed size.
#[derive(Clone, Copy)]
pub struct Part {
    pub kinds: [u8; Part::SIZE],
    pub tasks: [u16; Part::SIZE],
    pub hours: [u16; Part::SIZE],
    pub count: usize,
    ghost counted: { count ≤ part_size },
}

impl Part {
    ghost use Rattle.step_log.specs.Inner.Parts.{part_steps, check_steps_from, CheckedAs};

    // The most steps.
    pub const SIZE: usize = 64;

    // No steps yet.
    #[tactic(auto, unfolding(crate::specs::Inner::Parts::part_steps, steps::specs::Entry::steps_from))]
    pub fn new() -> Part
        ensures { (part_steps result ≡ []) × (result.count ≡ 0) }
    {
        Part {
            kinds: [0; Part::SIZE],
            tasks: [0; Part::SIZE],
            hours: [0; Part::SIZE],
            count: 0,
        }
    }

    // One step more.
    pub fn push(&mut self, x: Step)
        requires { self.old.count < part_size }
        ensures { (part_steps self.new ≡ (part_steps self.old ++ (x ∷ []))) × (self.new.count ≡ self.old.count + 1) }
    {
        let at = self.count;
        self.kinds[at] = x.kind;
        self.tasks[at] = x.task;
        self.hours[at] = x.hour;
        self.count = at + 1;
    }

    // A step of it. The core reads one of its slices in the same three lines: a function of three slices, each with a limit, would be no shorter.
    #[tactic(auto, unfolding(steps::specs::Entry::step_at))]
    pub fn step(&self, k: usize) -> Step
        requires { k < part_size }
        ensures { result ≡ step_at self.now.kinds self.now.tasks self.now.hours k }
    {
        Step {
            kind: self.kinds[k],
            task: self.tasks[k],
            hour: self.hours[k],
        }
    }

    // The log checker over one part, after the steps that were accepted before it, on the boxes that they left. Accepting, it counts those steps too.
    pub fn check(
        &self,
        plan: &Plan,
        boxes: &mut [u16],
        after: Accepted,
    ) -> Result<Accepted, Refusal>
        requires { after.steps + self.now.count < 2 ^ 64 }
        ensures { let P = packed_in plan.now in
            CheckedAs (check_steps_from P after.steps after.impossible boxes.old (part_steps self.now)) result boxes.new }
    {
        let count = self.count;
        propagation::replay::check_from(
            plan,
            boxes,
            &self.kinds[..count],
            &self.tasks[..count],
            &self.hours[..count],
            after,
        )
    }
}

// Where a part from one step on ends, in a log of so many steps.
pub fn part_end(from: usize, length: usize) -> usize
    requires { from ≤ length }
    ensures { result ≡ from + min part_size (length - from) }
{
    from + Part::SIZE.min(length - from)
}

// What the filter comes to with a part: its steps, and how the run stands with them, which counts the steps of the parts before it too.
#[derive(Clone, Copy)]
pub struct PartFiltered {
    pub steps: Part,
    pub filtered: Filtered,
}

impl PartFiltered {
    ghost use Rattle.step_log.specs.Inner.Parts.{does_go_on, FilteredAs};

    // The filter over one part, after so many steps and with room for so many in all, on the boxes that those steps left.
    pub fn run(
        plan: &Plan,
        boxes: &mut [u16],
        taken: usize,
        room: usize,
    ) -> Result<PartFiltered, Refusal>
        requires { taken ≤ room }
        ensures { let P = packed_in plan.now in
            FilteredAs P boxes.old taken room result boxes.new }
    {
        let mut kinds = [0u8; Part::SIZE];
        let mut tasks = [0u16; Part::SIZE];
        let mut task_hours = [0u16; Part::SIZE];
        let cells = part_end(taken, room) - taken;
        let filtered = propagation::filter::filter_from(
            plan,
            boxes,
            &mut kinds[..cells],
            &mut tasks[..cells],
            &mut task_hours[..cells],
            taken,
        )?;
        let steps = Part {
            kinds,
            tasks,
            hours: task_hours,
            count: filtered.count - taken,
        };
        Ok(PartFiltered { steps, filtered })
    }

    // Whether the run goes on: it stopped for room, and there is room in all.
    #[tactic(auto, unfolding(steps::specs::Entry::ending_answer))]
    pub fn goes_on(&self, room: usize) -> bool
        ensures { result ≡ does_go_on room (filter_answer (Ok self.now.filtered)) }
    {
        match self.filtered.ending {
            Ending::NoRoom => self.filtered.count < room,
            Ending::Settled | Ending::Impossible => false,
        }
    }
}
