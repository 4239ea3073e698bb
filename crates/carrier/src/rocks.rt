// Sets of rock cells, and what a carrier does among them.
ghost use Rattle.std.specs.Prelude.{◌≡◌, ℕ, Bool, ◌<◌, true};
ghost use Rattle.model.specs.Lattice.{rock_bits, test_at};
ghost use Rattle.carrier.specs.Steps.{is_free_beside};

use floor::Lattice;

// A set of cells that are rock.
pub trait Rocks {
    ghost rock: { Self → ℕ → Bool };

    fn is_rock(&self, cell: u32) -> bool
        ensures { result ≡ rock self.now cell };
}

// Rock on a floor of some cells, none of it off the floor.
pub trait Map: Rocks {
    ghost cells: { Self → ℕ };

    ghost within: { (m : Self) (a : ℕ) → Self.Rocks.rock m a ≡ true → a < cells m };
}

// The byte of the rock beside a cell: bit d - 1 is set for a rock neighbour in direction d.
// It goes over bits and not over directions, since bits are what it builds.
pub fn felt_at<L: Lattice, R: Rocks>(lattice: &L, rocks: &R, cell: u32) -> u8
    ensures { result ≡ rock_bits (L.Lattice.grid lattice.now) (R.Rocks.rock rocks.now) cell }
{
    let mut felt = 0;
    for bit in 0..8u8 {
        if rock_beside(lattice, rocks, cell, bit + 1) {
            felt |= 1 << bit;
        }
    }
    felt
}

// Whether the neighbour in a direction is rock.
fn rock_beside<L: Lattice, R: Rocks>(lattice: &L, rocks: &R, cell: u32, direction: u8) -> bool
    ensures { result ≡ test_at ((L.Lattice.grid lattice.now).beside cell direction) (R.Rocks.rock rocks.now) }
{
    lattice
        .beside(cell, direction)
        .is_some_and(|next| rocks.is_rock(next))
}

// The passable neighbour in a direction.
pub fn free_beside<L: Lattice, R: Rocks>(
    lattice: &L,
    rocks: &R,
    cell: u32,
    direction: u8,
) -> Option<u32>
    ensures { result ≡ is_free_beside ((L.Lattice.grid lattice.now).beside cell direction) (R.Rocks.rock rocks.now) }
{
    lattice
        .beside(cell, direction)
        .filter(|next| !rocks.is_rock(*next))
}
