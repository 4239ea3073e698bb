// The lattice of steps in all eight directions.
ghost use Rattle.model.specs.Floors.{used, slanting};
ghost use Rattle.floor.specs.Lawful.{kings_lawful};
ghost use Rattle.floor.specs.Guiding.{kings_guiding};

use crate::directions::is_direction;
use crate::extent::Apart;
use crate::squares::{Squares, Steps};

#[derive(Clone, Copy, Debug, PartialEq, Eq)]
pub struct AllWays;

pub type Kings = Squares<AllWays>;

impl Steps for AllWays {
    const NAME: &'static str = "Kings";

    ghost uses = { used };

    ghost far = { slanting };

    ghost lawful = { kings_lawful };

    ghost guides = { kings_guiding };

    fn in_use(direction: u8) -> bool {
        is_direction(direction)
    }

    fn far(apart: Apart) -> u32 {
        let Apart { columns, rows } = apart;
        let less = columns.min(rows);
        let more = columns.max(rows);
        7 * less + 5 * (more - less)
    }
}
