// Why no carrier can be made.
ghost use Rattle.std.specs.Prelude.{◌≡◌};
ghost use Rattle.carrier.specs.declared.unfit.Unfit.TheVariants as the-unfit;
ghost use Rattle.carrier.specs.Unfits.{unfit_number};

use std::alloc::AllocError;

#[derive(Clone, Copy, PartialEq, Eq, Debug)]
pub enum Unfit {
    // The sheet has not one byte for each cell.
    SheetLength,
    // The sheet's byte of this cell is neither passable nor rock; it is the first such cell.
    Foreign(u32),
    // There are over 64 pillars.
    TooManyPillars,
    // The start is no cell of the floor.
    StartOffFloor,
    // The start is a rock cell.
    StartOnRock,
    // There is no memory for a copy of the map.
    NoMemory,
}

impl Unfit {
    // The number of the refusal; want of memory has none. A match, as a case that holds a cell cannot be a number.
    pub fn number(&self) -> Option<u32>
        ensures { result ≡ unfit_number self.now }
    {
        match *self {
            Unfit::SheetLength => Some(2),
            Unfit::Foreign(_) => Some(3),
            Unfit::TooManyPillars => Some(4),
            Unfit::StartOffFloor => Some(6),
            Unfit::StartOnRock => Some(7),
            Unfit::NoMemory => None,
        }
    }
}

impl From<AllocError> for Unfit {
    ghost from_gives = { λ _ r. r ≡ the-unfit.NoMemory };

    fn from(_: AllocError) -> Unfit {
        Unfit::NoMemory
    }
}
