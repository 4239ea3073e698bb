// The pillar carrier: its rock is given by a list of pillars.
ghost use Rattle.std.specs.Prelude.{◌≡◌, ◌≤◌, IfOk, IfErr, None, vec_len};
ghost use Rattle.carrier.specs.Pillars.{any_pillar_covers, pillar_rock, pillars_refusal};
ghost use Rattle.carrier.specs.Unfits.{Refuses};
ghost use Rattle.carrier.specs.Covering.{rock_within};

use crate::pillar::Pillar;
use crate::rocks::{Map, Rocks};
use crate::rover::{Rover, check_start};
use crate::unfit::Unfit;
use floor::Lattice;
use std::alloc::Global;

const MOST: usize = 64;

pub type Pillars<L> = Rover<L, Plan>;

// The pillars on a floor of some cells, in rows of some width.
#[derive(Drop)]
pub struct Plan {
    pillars: Vec<Pillar>,
    width: u32,
    size: u32,
    ghost few: { vec_len pillars ≤ 64 },
}

impl Rocks for Plan {
    ghost rock = { λ p. pillar_rock p.size p.width p.pillars.items };

    fn is_rock(&self, cell: u32) -> bool {
        is_covered(&self.pillars, self.width, self.size, cell)
    }
}

impl Map for Plan {
    ghost cells = { λ p. p.size };

    ghost within = { λ p a e. rock_within p.size p.width p.pillars.items a e };
}

// Whether a cell of the floor is covered. Rows of width 0 have no columns, so that nothing is.
fn is_covered(pillars: &[Pillar], width: u32, size: u32, cell: u32) -> bool
    ensures { result ≡ pillar_rock size width pillars.now cell }
{
    if cell >= size || width == 0 {
        return false;
    }
    any_covers(pillars, cell % width, cell / width)
}

// Whether a pillar of the list covers the cell in a column and row.
// A rule of the project asks for a loop over the list with an index.
fn any_covers(pillars: &[Pillar], column: u32, row: u32) -> bool
    ensures { result ≡ any_pillar_covers pillars.now column row }
{
    for i in 0..pillars.len() {
        if pillars[i].covers(column, row) {
            return true;
        }
    }
    false
}

impl<L: Lattice + Drop> Pillars<L> {
    // A carrier on its start, over the floor of a lattice whose cells lie in rows of one width, and whose rock is given by the pillars, of which it keeps a copy.
    pub fn new(
        heap: Global,
        lattice: L,
        width: u32,
        pillars: &[Pillar],
        start: u32,
    ) -> Result<Pillars<L>, Unfit>
        ensures made { IfOk result (λ c. (pillars_refusal (L.Lattice.grid lattice).size width pillars.now start ≡ None) × (c.floor ≡ lattice) × (c.rocks.size ≡ (L.Lattice.grid lattice).size) × (c.rocks.width ≡ width) × (c.rocks.pillars.items ≡ pillars.now) × (c.at ≡ start)) }
        ensures refused { IfErr result (λ e. Refuses (pillars_refusal (L.Lattice.grid lattice).size width pillars.now start) e) }
    {
        if pillars.len() > MOST {
            return Err(Unfit::TooManyPillars);
        }
        let size = lattice.size();
        check_start(size, start, is_covered(pillars, width, size, start))?;
        let pillars = Vec::from_slice(heap, pillars)?;
        Ok(Rover {
            floor: lattice,
            rocks: Plan {
                pillars,
                width,
                size,
            },
            at: start,
        })
    }
}
