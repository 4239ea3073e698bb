// The first cells of a lattice, as a lattice of their own.
//
// No carrier keeps one. It stays since what is public here is promised.
ghost use Rattle.std.specs.Prelude.{◌≡◌, ◌≤◌};
ghost use Rattle.carrier.specs.Parts.{part_of, part_guide};
ghost use Rattle.carrier.specs.Parting.{part_lawful};
ghost use Rattle.carrier.specs.PartGuiding.{part_goal, part_guiding};

use floor::{Lattice, Metric};

#[derive(Drop)]
pub struct Part<L> {
    lattice: L,
    size: u32,
    ghost small: { size ≤ 4096 },
}

impl<L: Lattice> Part<L> {
    // All cells of a lattice.
    pub fn whole(lattice: L) -> Part<L>
        ensures { (result.lattice ≡ lattice) × (result.size ≡ (L.Lattice.grid lattice).size) × (part_of (L.Lattice.grid result.lattice) result.size ≡ L.Lattice.grid lattice) }
    {
        let size = lattice.size();
        Part { lattice, size }
    }

    // Another of the same. It is no derived copy, since none is derived for a type parameter beside a ghost field.
    pub fn again(&self) -> Part<L>
    where
        L: Copy,
        ensures { result ≡ self.now }
    {
        Part {
            lattice: self.lattice,
            size: self.size,
        }
    }
}

impl<L: Lattice> Lattice for Part<L> {
    ghost grid = { λ p. part_of (L.Lattice.grid p.lattice) p.size };

    ghost lawful = { λ p. part_lawful (L.Lattice.grid p.lattice) p.size (L.Lattice.lawful p.lattice) p.small };

    fn size(&self) -> u32 {
        self.size
    }

    fn beside(&self, cell: u32, direction: u8) -> Option<u32> {
        if cell >= self.size {
            return None;
        }
        self.lattice
            .beside(cell, direction)
            .filter(|next| *next < self.size)
    }

    fn cost(&self, direction: u8) -> u8 {
        self.lattice.cost(direction)
    }

    fn opposite(&self, direction: u8) -> u8 {
        self.lattice.opposite(direction)
    }
}

// A part that is the whole has the lattice's distances; in any other only the goal has one.
impl<L: Metric> Metric for Part<L> {
    ghost towards = { λ p goal. part_guide (L.Lattice.grid p.lattice).size (L.Metric.towards p.lattice goal) p.size goal };

    ghost aims = { λ p goal. part_goal _ (L.Metric.towards p.lattice goal) p.size goal (L.Metric.aims p.lattice goal) };

    ghost guides = { λ p goal. part_guiding (L.Lattice.grid p.lattice) (L.Metric.towards p.lattice goal) p.size goal (L.Lattice.lawful p.lattice) (L.Metric.guides p.lattice goal) };

    fn distance_to(&self, goal: u32, cell: u32) -> Option<u32> {
        if self.size == self.lattice.size() {
            self.lattice.distance_to(goal, cell)
        } else if cell == goal && cell < self.size {
            Some(0)
        } else {
            None
        }
    }
}
