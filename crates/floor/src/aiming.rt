// A guide that is made from a lattice and a goal.
ghost use Rattle.std.specs.Prelude.{◌≡◌};

use crate::{Guide, Lattice, Metric};

// A lattice that knows its distances, and a goal; a goal that is no cell has none.
#[derive(Debug, PartialEq, Eq, Drop)]
pub struct Aimed<L> {
    pub lattice: L,
    pub goal: u32,
}

impl<L: Lattice> Aimed<L> {
    pub fn new(lattice: L, goal: u32) -> Aimed<L>
        ensures { (result.lattice ≡ lattice) × (result.goal ≡ goal) }
    {
        Aimed { lattice, goal }
    }
}

impl<L: Lattice> Lattice for Aimed<L> {
    ghost grid = { λ a. L.Lattice.grid a.lattice };

    ghost lawful = { λ a. L.Lattice.lawful a.lattice };

    fn size(&self) -> u32 {
        self.lattice.size()
    }

    fn beside(&self, cell: u32, direction: u8) -> Option<u32> {
        self.lattice.beside(cell, direction)
    }

    fn cost(&self, direction: u8) -> u8 {
        self.lattice.cost(direction)
    }

    fn opposite(&self, direction: u8) -> u8 {
        self.lattice.opposite(direction)
    }
}

impl<L: Metric> Guide for Aimed<L> {
    ghost aim = { λ a. L.Metric.towards a.lattice a.goal };

    ghost guiding = { λ a. L.Metric.guides a.lattice a.goal };

    fn goal(&self) -> u32 {
        self.goal
    }

    fn distance(&self, cell: u32) -> Option<u32> {
        self.lattice.distance_to(self.goal, cell)
    }
}

#[cfg(test)]
mod tests {
    use super::*;
    use crate::extent::SizeFault;
    use crate::kings::Kings;
    use crate::streets::Streets;
    use std::test::Fail;

    #[test]
    fn kings_go_aslant(rt: HostRuntime) -> Result<(), Fail> {
        let kings = Kings::new(4, 4)?;
        let right = Aimed::new(kings, 7);
        assert_eq!(rt; right.distance(0), Some(17));
        assert_eq!(rt; right.lead(0), 1);
        let below = Aimed::new(kings, 13);
        assert_eq!(rt; below.distance(0), Some(17));
        assert_eq!(rt; below.lead(0), 2);
        assert_eq!(rt; Aimed::new(kings, 16).distance(0), None);
        Ok(())
    }

    #[test]
    fn streets_end_at_the_edge(rt: HostRuntime) -> Result<(), Fail> {
        let streets = Streets::new(3, 2)?;
        assert_eq!(rt; streets.beside(2, 1), None);
        assert_eq!(rt; streets.beside(2, 3), Some(5));
        assert_eq!(rt; streets.beside(2, 4), None);
        assert_eq!(rt; Aimed::new(streets, 2).distance(3), Some(15));
        Ok(())
    }

    #[test]
    fn sizes_are_from_1_to_64(rt: HostRuntime) -> Result<(), Fail> {
        assert_eq!(rt; Streets::new(0, 0).err(), Some(SizeFault::Width));
        assert_eq!(rt; Kings::new(64, 65).err(), Some(SizeFault::Height));
        assert_eq!(rt; Kings::new(64, 64)?.size(), 4096);
        Ok(())
    }
}
