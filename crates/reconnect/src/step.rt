// The steps of a search.
ghost use Rattle.std.specs.Prelude.{◌≡◌, ℕ, List};
ghost use Rattle.board.specs.Board.{pointer_at};
ghost use Rattle.reconnect.specs.Frontier.{Numbered};
ghost use Rattle.reconnect.specs.Reaching.{with_entries};
ghost use Rattle.reconnect.specs.Spreading.{Spreads};
ghost use Rattle.reconnect.specs.Walking.{unpainted};
ghost use Rattle.measure.specs.declared.queue.Entry.{Entry as QueueEntry};
ghost use Rattle.reconnect.specs.Steps.{TakesAs, JoinsAs, WalksAs, StepsAs};

use crate::frontier::{Taken, measure_of};
use crate::state::{Outcome, Search, Walk};
use board::around::next;
use board::square::{Square, Stage, paint, set_paint, set_stage, stage_in};
use floor::{Guide, Lattice};
use measure::Measure;
use measure::queue::Entry;

impl Search {
    // One step: a walk step if a walk is under way, else a take; a match, as there are only these two. Where it answers
    // nothing the search goes on.
    // Board and queue are lent to each call, by a rule of the project.
    pub fn step<G: Guide, M: Measure>(
        &mut self,
        guide: &G,
        home: u32,
        board: &mut [Square<M>],
        queue: &mut [Entry<M>],
    ) -> Option<Outcome>
        ensures { StepsAs M.Measure.scale M.Measure.value M.Measure.kept result (record { search = self.old; board = board.old; queue = queue.old }) (record { search = self.new; board = board.new; queue = queue.new }) (G.Lattice.grid guide.now) home (G.Guide.aim guide.now) }
    {
        match self.walk {
            None => self.take(board, queue),
            Some(walk) => self.walk_on(guide, home, walk, board, queue),
        }
    }

    // Takes the first waiting cell, from which a walk starts; where none waits the search is shut.
    fn take<M: Measure>(
        &mut self,
        board: &mut [Square<M>],
        queue: &mut [Entry<M>],
    ) -> Option<Outcome>
        ensures { TakesAs M.Measure.scale M.Measure.value M.Measure.kept result (record { search = self.old; board = board.old; queue = queue.old }) (record { search = self.new; board = board.new; queue = queue.new }) }
    {
        let Some(chosen) = self.choose(board, queue) else {
            return Some(Outcome::Shut);
        };
        let cell = chosen.cell;
        let taken = Stage::Taken(chosen.measure, chosen.back);
        set_stage(board, cell, self.number, taken);
        self.walk = Some(Walk {
            taken: cell,
            at: cell,
        });
        None
    }

    // A step of the walk from a taken cell: at the goal it joins; elsewhere it paints the cell where it stands, and goes on along
    // the pointer, or fails where there is none or it leads to a cell that this search has painted. Then the taken cell spreads.
    fn walk_on<G: Guide, M: Measure>(
        &mut self,
        guide: &G,
        home: u32,
        walk: Walk,
        board: &mut [Square<M>],
        queue: &mut [Entry<M>],
    ) -> Option<Outcome>
        ensures { WalksAs M.Measure.scale M.Measure.value M.Measure.kept result (record { search = self.old; board = board.old; queue = queue.old }) (record { search = self.new; board = board.new; queue = queue.new }) (G.Lattice.grid guide.now) home (G.Guide.aim guide.now) walk.taken walk.at }
    {
        if walk.at == guide.goal() {
            return self.join(guide, home, walk.taken, board);
        }
        set_paint(board, walk.at, self.number);
        match self.unpainted_next(guide, walk.at, board) {
            Some(at) => self.walk = Some(Walk { at, ..walk }),
            None => {
                self.walk = None;
                self.spread(guide, walk.taken, board, queue);
            }
        }
        None
    }

    // Where the pointer of a cell leads, unless this search has painted that cell.
    fn unpainted_next<L: Lattice, M: Copy>(
        &self,
        lattice: &L,
        cell: u32,
        board: &[Square<M>],
    ) -> Option<u32>
        ensures { result ≡ unpainted board.now self.now.number ((L.Lattice.grid lattice.now).beside cell (pointer_at board.now cell)) }
    {
        next(lattice, board, cell).filter(|next| paint(board, *next) != self.number)
    }

    // Joins the tree at a taken cell: the pointers from `home` lead there.
    fn join<L: Lattice, M: Measure>(
        &mut self,
        lattice: &L,
        home: u32,
        taken: u32,
        board: &mut [Square<M>],
    ) -> Option<Outcome>
        ensures { (queue : List (QueueEntry M)) → JoinsAs M.Measure.scale M.Measure.value M.Measure.kept result (record { search = self.old; board = board.old; queue = queue }) (record { search = self.new; board = board.new; queue = queue }) (L.Lattice.grid lattice.now) home taken }
    {
        let (first, second) = measure_of(stage_in(board, taken, self.number)).shown();
        self.retrace(lattice, home, taken, board);
        self.walk = None;
        Some(Outcome::Joined(first, second))
    }

    // The taken cell spreads: each of its neighbours is reached from it.
    fn spread<L: Lattice, M: Measure>(
        &mut self,
        lattice: &L,
        taken: u32,
        board: &mut [Square<M>],
        queue: &mut [Entry<M>],
    )
        ensures rest { self.new ≡ with_entries self.old self.new.waiting }
        ensures numbered { (size : ℕ) → Numbered size self.old.number board.old → Numbered size self.old.number board.new }
        ensures spreads { Spreads (L.Lattice.grid lattice.now) M.Measure.scale M.Measure.value M.Measure.kept taken self.old.number board.old board.new queue.old queue.new self.old.waiting self.new.waiting }
    {
        let from = Taken {
            cell: taken,
            measure: measure_of(stage_in(board, taken, self.number)),
        };
        for direction in 1..=8 {
            if let Some(cell) = lattice.beside(taken, direction) {
                self.reach(from, lattice.cost(direction), cell, board, queue);
            }
        }
    }
}
