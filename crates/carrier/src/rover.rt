// A carrier among the rock of a map, of which it keeps a copy.
ghost use Rattle.std.specs.Prelude.{◌≡◌, ◌<◌, false};
ghost use Rattle.std.specs.Result.{result_err};
ghost use Rattle.std.proofs.Common.{arith};
ghost use Rattle.carrier.specs.Unfits.{start_refusal};

use crate::Carrier;
use crate::rocks::{Map, felt_at, free_beside};
use crate::unfit::Unfit;
use floor::Lattice;

// It stands on a passable cell of its floor, and its map is one of that floor.
#[derive(Drop)]
pub struct Rover<L: Lattice, R: Map> {
    pub(crate) floor: L,
    pub(crate) rocks: R,
    pub(crate) at: u32,
    ghost sized: { R.Map.cells rocks ≡ (L.Lattice.grid floor).size },
    ghost inside: { at < (L.Lattice.grid floor).size },
    ghost open: { R.Rocks.rock rocks at ≡ false },
}

// A start has to be a cell of a floor of this size, and no rock.
pub(crate) fn check_start(size: u32, start: u32, on_rock: bool) -> Result<(), Unfit>
    ensures { result_err result ≡ start_refusal size (λ _. on_rock) start }
{
    if start >= size {
        return Err(Unfit::StartOffFloor);
    }
    if on_rock {
        return Err(Unfit::StartOnRock);
    }
    Ok(())
}

impl<L: Lattice + Copy, R: Map> Carrier for Rover<L, R> {
    type Floor = L;

    ghost floor = { λ c. c.floor };

    ghost terrain = { λ c. record { rock = R.Rocks.rock c.rocks; at = c.at } };

    ghost cells = { λ c a e. omega (arith, R.Map.within c.rocks a e, c.sized) };

    ghost stands = { λ c. (c.inside, c.«open») };

    fn lattice(&self) -> L {
        self.floor
    }

    fn cell(&self) -> u32 {
        self.at
    }

    fn feel(&self) -> u8 {
        felt_at(&self.floor, &self.rocks, self.at)
    }

    fn step(&mut self, direction: u8) -> bool {
        match free_beside(&self.floor, &self.rocks, self.at, direction) {
            Some(next) => {
                self.at = next;
                true
            }
            None => false,
        }
    }
}
