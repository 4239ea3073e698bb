// The way back: from a taken cell along the backs to the cell where the search began.
ghost use Rattle.std.specs.Prelude.{◌≡◌, ℕ};
ghost use Rattle.model.specs.Lattice.{is, first_direction};
ghost use Rattle.reconnect.specs.Frontier.{Numbered};
ghost use Rattle.reconnect.specs.Reaching.{back_in};
ghost use Rattle.reconnect.specs.Retracing.{Retraces};

use crate::state::Search;
use board::square::{Square, Stage, set_pointer, stage_in};
use floor::Lattice;
use measure::Measure;

impl Search {
    // Sets the pointers from `home` to a taken cell along the backs; the taken cell keeps its own.
    pub(crate) fn retrace<L: Lattice, M: Measure>(
        &self,
        lattice: &L,
        home: u32,
        taken: u32,
        board: &mut [Square<M>],
    )
        ensures numbered { (size : ℕ) → Numbered size self.now.number board.old → Numbered size self.now.number board.new }
        ensures retraces { Retraces (L.Lattice.grid lattice.now) M.Measure.scale M.Measure.value home taken self.now.number board.old board.new }
    {
        let mut cell = taken;
        for _step in 0..lattice.size() {
            if cell == home {
                return;
            }
            let back = back_of(stage_in(board, cell, self.number));
            set_pointer(board, back, towards(lattice, back, cell));
            cell = back;
        }
    }
}

// The back of a stage; an idle cell has none. A match, as a stage is no option: two of its cases have one.
fn back_of<M: Copy>(stage: Stage<M>) -> u32
    ensures { result ≡ back_in stage }
{
    match stage {
        Stage::Idle => 0,
        Stage::Waiting(_, back) | Stage::Taken(_, back) => back,
    }
}

// The direction from a cell to a neighbour, or 0.
fn towards<L: Lattice>(lattice: &L, from: u32, to: u32) -> u8
    ensures { result ≡ first_direction 8 (λ d. is ((L.Lattice.grid lattice.now).beside from d) to) }
{
    (1..9)
        .find(|direction| lattice.beside(from, *direction) == Some(to))
        .unwrap_or(0)
}
