// The two bounds of a task's start that a step may move, with the letters of the steps that move them and the hours in which L or U can be admitted.
ghost use Rattle.std.specs.Prelude.{◌≡◌, ◌+◌, ◌<◌};
ghost use Rattle.turns.specs.Inner.Kept.{is_lower};
ghost use Rattle.turns.specs.Inner.Finding.{letter_of, pair_letter_of, first_hour, end_hour};

use calendar::Window;
use steps::StepKind;
use units::{Bounds, Hour};

// L and F move the lower bound of S, U and B the upper.
#[derive(Clone, Copy, PartialEq, Eq)]
pub enum Side {
    Lower,
    Upper,
}

impl Side {
    // The letter of the steps that move it for an hour's load.
    #[tactic(auto, unfolding(crate::specs::Inner::Finding::letter_of))]
    pub fn letter(self) -> u8
        ensures { result ≡ letter_of (is_lower self) }
    {
        match self {
            Side::Lower => StepKind::Lower.letter(),
            Side::Upper => StepKind::Upper.letter(),
        }
    }

    // And of those that move it for a pair.
    #[tactic(auto, unfolding(crate::specs::Inner::Finding::pair_letter_of))]
    pub fn pair_letter(self) -> u8
        ensures { result ≡ pair_letter_of (is_lower self) }
    {
        match self {
            Side::Lower => StepKind::Forward.letter(),
            Side::Upper => StepKind::Backward.letter(),
        }
    }

    // The first hour in which L or U of a task with the window and the box can be admitted.
    #[tactic(auto, unfolding(crate::specs::Inner::Finding::first_hour))]
    pub fn first_hour(self, w: Window, b: Bounds) -> Hour
        ensures { result.0 ≡ first_hour (is_lower self) w b }
    {
        match self {
            Side::Lower => b.earliest,
            Side::Upper => w.bounds.latest,
        }
    }

    // The hour before which these end.
    #[tactic(auto, unfolding(crate::specs::Inner::Finding::end_hour))]
    pub fn end_hour(self, w: Window, b: Bounds) -> Hour
        requires { b.latest.0 + b.shortest.0 < 65536 }
        ensures { result.0 ≡ end_hour (is_lower self) w b }
    {
        match self {
            Side::Lower => w.ect,
            Side::Upper => b.latest.plus(b.shortest),
        }
    }
}
