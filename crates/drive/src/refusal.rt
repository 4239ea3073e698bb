// Why a call of a drive is refused.
ghost use Rattle.std.specs.Prelude.{◌≡◌};
ghost use Rattle.drive.specs.Refusals.{refusal_number};

#[derive(Clone, Copy, PartialEq, Eq, Debug)]
pub enum Refusal {
    // The goal is no cell of the floor.
    GoalOffFloor = 8,
    // The board has fewer records than the floor has cells.
    ShortBoard = 9,
    // The queue has under 8 entries for each cell and one more.
    ShortQueue = 10,
    // The call is not of the drive's phase.
    WrongPhase = 11,
    // A think was given no steps.
    NoSteps = 12,
    // The carrier stands on another cell than the drive left it on.
    WrongCell = 13,
    // The carrier refused the step.
    StepRefused = 14,
}

impl Refusal {
    pub fn number(&self) -> u32
        ensures { result ≡ refusal_number self.now }
    {
        *self as u32
    }
}
