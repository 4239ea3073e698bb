// What a drive tells of itself.
ghost use Rattle.std.specs.Prelude.{◌≡◌};
ghost use Rattle.drive.specs.Telling.{telling};

use crate::drive::Drive;
use model::Phase;

// The phase, the carrier's cell, the moves and their length, the rock found, and the searches begun.
#[derive(Clone, Copy, PartialEq, Eq, Debug)]
pub struct Told {
    pub phase: Phase,
    pub cell: u32,
    pub moves: u32,
    pub length: u32,
    pub found: u32,
    pub searches: u16,
}

impl<G> Drive<G> {
    // It is never refused; a void drive tells its phase and zeros.
    pub fn tell(&self) -> Told
        ensures { result ≡ telling self.now }
    {
        match self.phase {
            // Written out, as a phase has no default.
            Phase::Void => Told {
                phase: Phase::Void,
                cell: 0,
                moves: 0,
                length: 0,
                found: 0,
                searches: 0,
            },
            phase => Told {
                phase,
                cell: self.cell,
                moves: self.moves,
                length: self.length,
                found: self.found,
                searches: self.search.number,
            },
        }
    }
}
