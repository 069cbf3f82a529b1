// Memory for a plan that is read from a text.
#![tactic(auto)]

ghost use Rattle.std.specs.Prelude.{List, ℕ, ◌≡◌, ◌*◌, IfOk, take};
ghost use Rattle.units.specs.Limits.{pair_numbers};
ghost use Rattle.plan.specs.Plan.{task_count};
ghost use Rattle.plan.specs.Packed.{bytes_of};
ghost use Rattle.plan.specs.Over.{packed_plan};
ghost use Rattle.plan.specs.Lent.{packed_in, plan_in};
ghost use Rattle.plan_lines.specs.Pieces.{IsReady, IsRead};
ghost use Rattle.plan_format.specs.Reading.{end_with, read_plan};
ghost use Rattle.plan_text.specs.Entry.{reading_answer};
ghost use Rattle.plan_text.specs.Limits.{WithinLimits};

use crate::{MOST_BOUNDS, MOST_HEIGHTS, MOST_PACKED, MOST_PAIRED, PlanRead, finish_plan};
use plan::{Plan, Refusal, first_byte};
use plan_lines::Reading;
use units::{Bounds, Duration, MOST_ROOMS, Pair};

// Memory for the most that a plan can hold, since there is no heap, but for its boxes, which are lent beside a plan.
#[derive(Drop)]
pub struct PlanMemory {
    pub capacities: [u16; MOST_ROOMS],
    pub calendars: [u8; MOST_PACKED],
    pub task_calendars: [u16; Bounds::MOST],
    pub work_times: [u16; Bounds::MOST],
    pub heights: [u16; MOST_HEIGHTS],
    pub pairs: [u16; MOST_PAIRED],
}

impl PlanMemory {
    // Before a plan is read.
    pub const EMPTY: PlanMemory = PlanMemory {
        capacities: [0; MOST_ROOMS],
        calendars: [0; MOST_PACKED],
        task_calendars: [0; Bounds::MOST],
        work_times: [0; Bounds::MOST],
        heights: [0; MOST_HEIGHTS],
        pairs: [0; MOST_PAIRED],
    };

    // Reads a plan text of any length into this memory and that of the boxes. What was read is within the limits of a plan.
    pub fn read(&mut self, text: &[u8], boxes: &mut [u16; MOST_BOUNDS]) -> Result<PlanRead, Refusal>
        ensures reads { end_with (reading_answer result)
            self.new.capacities self.new.calendars self.new.task_calendars self.new.work_times self.new.heights self.new.pairs boxes.new
            ≡ read_plan
            self.old.capacities self.old.calendars self.old.task_calendars self.old.work_times self.old.heights self.old.pairs boxes.old text.now }
        ensures limits { IfOk result WithinLimits }
    {
        let mut reading = Reading::begin();
        reading.take(text);
        self.finish(&reading, boxes)
    }

    // The same at the end of a text that was read by pieces.
    pub fn finish(
        &mut self,
        reading: &Reading,
        boxes: &mut [u16; MOST_BOUNDS],
    ) -> Result<PlanRead, Refusal>
        requires { IsReady reading.now }
        ensures reads { (text : List ℕ) → IsRead text reading.now → end_with (reading_answer result)
            self.new.capacities self.new.calendars self.new.task_calendars self.new.work_times self.new.heights self.new.pairs boxes.new
            ≡ read_plan
            self.old.capacities self.old.calendars self.old.task_calendars self.old.work_times self.old.heights self.old.pairs boxes.old text }
        ensures limits { IfOk result WithinLimits }
    {
        finish_plan(
            reading,
            &mut self.capacities,
            &mut self.calendars,
            &mut self.task_calendars,
            &mut self.work_times,
            &mut self.heights,
            &mut self.pairs,
            boxes,
        )
    }

    // The plan that was read: the first numbers of each part, for as many rooms, tasks and pairs as were read.
    #[tactic(auto, unfolding(plan::specs::Plan::first_symbol))]
    pub fn plan(&self, read: PlanRead) -> Plan<'_>
        requires { WithinLimits read }
        ensures parts { packed_in result
            ≡ packed_plan read.hours
            (take read.rooms self.now.capacities)
            (take (read.calendars * bytes_of read.hours) self.now.calendars)
            (take read.tasks self.now.task_calendars)
            (take read.tasks self.now.work_times)
            (take (read.rooms * read.tasks) self.now.heights)
            (take (pair_numbers * read.pairs) self.now.pairs) }
        ensures tasks { task_count (plan_in result) ≡ read.tasks }
    {
        let bytes = first_byte(read.calendars as u16, Duration(read.hours));
        Plan::new(
            read.hours,
            &self.capacities[..read.rooms],
            &self.calendars[..bytes],
            &self.task_calendars[..read.tasks],
            &self.work_times[..read.tasks],
            &self.heights[..read.rooms * read.tasks],
            &self.pairs[..Pair::NUMBERS * read.pairs],
        )
    }
}
