// Beginning a search.
ghost use Rattle.std.specs.Prelude.{◌≡◌};
ghost use Rattle.reconnect.specs.Represents.{Memory};
ghost use Rattle.reconnect.specs.Beginning.{unbegun, Begins};

use crate::state::Search;
use board::square::{Square, Stage, set_stage};
use measure::Measure;
use measure::queue::{Entry, push};

impl Search {
    // No search was begun yet.
    pub fn none() -> Search
        ensures { result ≡ unbegun }
    {
        Search {
            number: 0,
            waiting: 0,
            walk: None,
        }
    }

    // Begins the next search: the cell alone waits, at zero, with itself as its back.
    pub fn begin<M: Measure>(&mut self, cell: u32, board: &mut [Square<M>], queue: &mut [Entry<M>])
        ensures { Begins M.Measure.scale M.Measure.value M.Measure.kept cell (record { search = self.old; board = board.old; queue = queue.old }) (record { search = self.new; board = board.new; queue = queue.new }) }
    {
        self.number = self.number.saturating_add(1);
        self.walk = None;
        let value = M::zero();
        set_stage(board, cell, self.number, Stage::Waiting(value, cell));
        self.waiting = push(queue, 0, Entry { value, cell }).unwrap_or(0);
    }
}
