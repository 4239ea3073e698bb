// The lattice of the cells of a floor, by the steps that are in use on it.
ghost use Rattle.std.specs.Prelude.{◌≡◌, ℕ, Bool};
ghost use Rattle.model.specs.Lattice.{Lawful, Guiding};
ghost use Rattle.model.specs.Floors.{towards_goal};
ghost use Rattle.floor.specs.Squares.{on_floor, Sized};
ghost use Rattle.floor.specs.Sizes.{Made};
ghost use Rattle.std.proofs.Common.{rules};

use crate::directions::{facing, is_straight};
use crate::extent::{Apart, Extent, SizeFault};
use crate::{Lattice, Metric};
use std::fmt;
use std::fmt::{Debug, Formatter, Write};
use std::marker::PhantomData;

// Which directions are in use, and how far so many columns and rows are by steps in them.
pub trait Steps {
    // What the lattice is called where it is shown.
    const NAME: &'static str = "Squares";

    ghost uses: { ℕ → Bool };

    ghost far: { ℕ → ℕ → ℕ };

    fn in_use(direction: u8) -> bool
        ensures { result ≡ uses direction };

    fn far(apart: Apart) -> u32
        ensures { result ≡ far apart.columns apart.rows };

    ghost lawful: { (w h : ℕ) → Sized w h → Lawful (on_floor uses w h) };

    ghost guides: { (w h goal : ℕ) → Sized w h → Guiding (on_floor uses w h) (towards_goal far w h goal) };
}

#[derive(Clone, Copy, PartialEq, Eq)]
pub struct Squares<S> {
    pub extent: Extent,
    pub steps: PhantomData<S>,
}

// By hand, so that the lattice shows by its name, and without the marker of its type.
impl<S: Steps> Debug for Squares<S> {
    fn fmt<W: Write>(&self, f: &mut Formatter<W>) -> fmt::Result {
        f.debug_struct(S::NAME)
            .field("extent", &self.extent)
            .finish()
    }
}

impl<S> Squares<S> {
    pub fn new(width: u32, height: u32) -> Result<Squares<S>, SizeFault>
        ensures { Made width height result (λ s. (s.extent.width ≡ width) × (s.extent.height ≡ height)) }
    {
        let extent = Extent::new(width, height)?;
        Ok(Squares {
            extent,
            steps: PhantomData,
        })
    }
}

impl<S: Steps> Lattice for Squares<S> {
    ghost grid = { λ s. on_floor S.uses s.extent.width s.extent.height };

    ghost lawful = { λ s. S.lawful s.extent.width s.extent.height s.extent.sized };

    fn size(&self) -> u32 {
        self.extent.size()
    }

    fn beside(&self, cell: u32, direction: u8) -> Option<u32> {
        if S::in_use(direction) {
            self.extent.beside(cell, direction)
        } else {
            None
        }
    }

    fn cost(&self, direction: u8) -> u8 {
        if is_straight(direction) { 5 } else { 7 }
    }

    fn opposite(&self, direction: u8) -> u8 {
        if S::in_use(direction) {
            facing(direction)
        } else {
            0
        }
    }
}

impl<S: Steps> Metric for Squares<S> {
    ghost towards = { λ s. towards_goal S.far s.extent.width s.extent.height };

    ghost aims = { Prim.search rules };

    ghost guides = { λ s goal. S.guides s.extent.width s.extent.height goal s.extent.sized };

    fn distance_to(&self, goal: u32, cell: u32) -> Option<u32> {
        let apart = self.extent.differences(cell, goal)?;
        Some(S::far(apart))
    }
}

#[cfg(test)]
mod tests {
    use crate::kings::Kings;
    use crate::streets::Streets;
    use std::test::Fail;

    #[test]
    fn each_shows_by_its_name(rt: HostRuntime) -> Result<(), Fail> {
        let kings = Kings::new(3, 2)?;
        let shown = format!(in rt.alloc(); "{kings:?}")?;
        assert_eq!(rt;
            shown.as_str(),
            "Kings { extent: Extent { width: 3, height: 2 } }"
        );
        let streets = Streets::new(3, 2)?;
        let shown = format!(in rt.alloc(); "{streets:?}")?;
        assert_eq!(rt;
            shown.as_str(),
            "Streets { extent: Extent { width: 3, height: 2 } }"
        );
        Ok(())
    }
}
