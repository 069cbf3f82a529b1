// Steps, logs and runs: the kinds of value that the log checker and the filter speak of. The definitions are in specs/, the laws about them in
// proofs/; the code over them is in `turns` and `propagation`.
#![tactic(auto)]

ghost use Rattle.std.specs.Prelude.{◌≡◌};
ghost use Rattle.steps.specs.Steps.{kind_of, kind_in, letter_of};

use units::Bounds;

// A step of a log: its kind, a letter as one byte, a task, or the room or the pair that the kind names in its place, and an hour. A field that the
// kind does not use is 0. The letter is no `StepKind`, since a log from anyone may hold any byte, which refusal 11 names.
#[derive(Clone, Copy, PartialEq, Eq)]
pub struct Step {
    pub kind: u8,
    pub task: u16,
    pub hour: u16,
}

// The kinds of step, by their letters.
#[derive(Clone, Copy, PartialEq, Eq)]
pub enum StepKind {
    Calendar = b'C' as isize,
    Overload = b'O' as isize,
    Lower = b'L' as isize,
    Upper = b'U' as isize,
    Forward = b'F' as isize,
    Backward = b'B' as isize,
}

impl StepKind {
    // The kind that a letter names, if it names one. No `TryFrom`: its error type would say no more than that it names none.
    #[tactic(auto, unfolding(crate::specs::Steps::kind_of))]
    pub fn of_letter(letter: u8) -> Option<StepKind>
        ensures { kind_in result ≡ kind_of letter }
    {
        match letter {
            b'C' => Some(StepKind::Calendar),
            b'O' => Some(StepKind::Overload),
            b'L' => Some(StepKind::Lower),
            b'U' => Some(StepKind::Upper),
            b'F' => Some(StepKind::Forward),
            b'B' => Some(StepKind::Backward),
            _ => None,
        }
    }

    // Its letter as a byte, by a name that says what the number is.
    pub fn letter(self) -> u8
        ensures { result ≡ letter_of self }
    {
        self as u8
    }
}

// What a step comes to at its turn; where it moves a bound, the task whose bound it moves, and the bounds that the task has then. One question with
// four answers (11, 12, and 01's two effects): a Result of the two effects would part them again, and each `match` would have two levels.
#[derive(Clone, Copy, PartialEq, Eq)]
pub enum Judged {
    NotAdmitted,
    Unknown,
    Impossible,
    Moved { task: u16, bounds: Bounds },
}

// What the log checker answers where it accepts: the number of steps, and whether the last said impossible.
#[derive(Clone, Copy, PartialEq, Eq)]
pub struct Accepted {
    pub steps: usize,
    pub impossible: bool,
}

// How a run of the filter ends. Without room is refusal 32, and an end all the same, since its boxes and its count stand.
#[derive(Clone, Copy, PartialEq, Eq)]
pub enum Ending {
    Settled,
    Impossible,
    NoRoom,
}

// What the filter answers where the plan passes its tests: how the run ended, and the count of the steps taken.
#[derive(Clone, Copy, PartialEq, Eq)]
pub struct Filtered {
    pub ending: Ending,
    pub count: usize,
}
