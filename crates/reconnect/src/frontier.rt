// The waiting cells of a search: choosing the first of them, and reaching new ones.
ghost use Rattle.std.specs.Prelude.{◌≡◌, ℕ, ◌≤◌};
ghost use Rattle.model.specs.Ground.{Ground};
ghost use Rattle.model.specs.Lattice.{Lattice as Grid, Guide as Aim};
ghost use Rattle.model.specs.Plain.{Stage as PlainStage};
ghost use Rattle.model.specs.Worlds.{over};
ghost use Rattle.board.specs.Board.{stage_shown};
ghost use Rattle.reconnect.specs.Frontier.{Numbered, Queued};
ghost use Rattle.reconnect.specs.Reaching.{improves, with_entries, StagesAs, Choice, IsMeasure, Reaches};

use crate::state::Search;
use board::square::{Square, Stage, mark, set_stage, stage_in};
use measure::Measure;
use measure::queue::{Entry, pop, push};
use model::Mark;

// A waiting cell that is the next to be taken, with its measure and its back.
#[derive(Clone, Copy)]
pub(crate) struct Chosen<M> {
    pub(crate) cell: u32,
    pub(crate) measure: M,
    pub(crate) back: u32,
}

// A taken cell, and its measure.
#[derive(Clone, Copy)]
pub(crate) struct Taken<M> {
    pub(crate) cell: u32,
    pub(crate) measure: M,
}

// `rest` and `numbered` stay clauses of each: number and count as parameters of their own are longer, and the board is lent.
impl Search {
    // The waiting cell of least measure, the lowest among equals. Its entry leaves the queue, and outdated ones before it.
    pub(crate) fn choose<M: Measure>(
        &mut self,
        board: &[Square<M>],
        queue: &mut [Entry<M>],
    ) -> Option<Chosen<M>>
        ensures rest { self.new ≡ with_entries self.old self.new.waiting }
        ensures fewer { self.new.waiting ≤ self.old.waiting }
        ensures choice { (size : ℕ) (stages : ℕ → PlainStage M.Measure.scale.Value) → StagesAs M.Measure.scale M.Measure.value size self.old.number board.now stages → Queued M.Measure.scale M.Measure.value size stages queue.old self.old.waiting → Choice M.Measure.scale M.Measure.value size self.old.number board.now stages queue.new self.new.waiting result }
    {
        while let Some((entry, left)) = pop(queue, self.waiting) {
            self.waiting = left;
            if let Stage::Waiting(measure, back) = stage_in(board, entry.cell, self.number) {
                return Some(Chosen {
                    cell: entry.cell,
                    measure,
                    back,
                });
            }
        }
        None
    }

    // A neighbour of a taken cell, unless it is rock, waits with the extended measure and that cell as its back,
    // if it had a later measure or none.
    pub(crate) fn reach<M: Measure>(
        &mut self,
        from: Taken<M>,
        cost: u8,
        cell: u32,
        board: &mut [Square<M>],
        queue: &mut [Entry<M>],
    )
        ensures rest { self.new ≡ with_entries self.old self.new.waiting }
        ensures numbered { (size : ℕ) → Numbered size self.old.number board.old → Numbered size self.old.number board.new }
        ensures reaches { (l : Grid) (terrain : Ground) (aim : Aim) → Reaches (over l terrain aim M.Measure.scale) M.Measure.value M.Measure.kept from cost cell self.old.number board.old board.new queue.old queue.new self.old.waiting self.new.waiting }
    {
        let mark = mark(board, cell);
        let reached = from.measure.extend(cost, mark == Mark::Unseen);
        if mark == Mark::Rock || !improved_by(stage_in(board, cell, self.number), reached) {
            return;
        }
        set_stage(board, cell, self.number, Stage::Waiting(reached, from.cell));
        let entry = Entry {
            value: reached,
            cell,
        };
        self.waiting = push(queue, self.waiting, entry).unwrap_or(self.waiting);
    }
}

// Whether a measure is earlier than that of a stage, or the cell is idle; a taken cell is final.
fn improved_by<M: Measure>(stage: Stage<M>, measure: M) -> bool
    ensures { result ≡ improves M.Measure.scale M.Measure.value (stage_shown M.Measure.value stage) (M.Measure.value measure) }
{
    match stage {
        Stage::Idle => true,
        Stage::Waiting(old, _) => !old.at_most(&measure),
        Stage::Taken(_, _) => false,
    }
}

// The measure of a stage; an idle cell measures nothing.
pub(crate) fn measure_of<M: Measure>(stage: Stage<M>) -> M
    ensures { IsMeasure M.Measure.scale M.Measure.value M.Measure.kept stage result }
{
    match stage {
        Stage::Idle => M::zero(),
        Stage::Waiting(measure, _) | Stage::Taken(measure, _) => measure,
    }
}
