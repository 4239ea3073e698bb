// The lattice of steps to the next column or row and back, along directions 1, 3, 5 and 7.
ghost use Rattle.std.specs.Prelude.{◌&&◌};
ghost use Rattle.model.specs.Floors.{used, odd, straight};
ghost use Rattle.floor.specs.Lawful.{streets_lawful};
ghost use Rattle.floor.specs.Guiding.{streets_guiding};

use crate::directions::is_straight;
use crate::extent::Apart;
use crate::squares::{Squares, Steps};

#[derive(Clone, Copy, Debug, PartialEq, Eq)]
pub struct Straight;

pub type Streets = Squares<Straight>;

impl Steps for Straight {
    const NAME: &'static str = "Streets";

    ghost uses = { λ d. used d && odd d };

    ghost far = { straight };

    ghost lawful = { streets_lawful };

    ghost guides = { streets_guiding };

    fn in_use(direction: u8) -> bool {
        is_straight(direction)
    }

    fn far(apart: Apart) -> u32 {
        let Apart { columns, rows } = apart;
        5 * (columns + rows)
    }
}
