// Thinking: the steps of a search.
ghost use Rattle.std.specs.Prelude.{◌≡◌, drop, IfErr, Some, None, OnOk};
ghost use Rattle.model.specs.Ground.{Ground};
ghost use Rattle.model.specs.Plain.{think};
ghost use Rattle.reconnect.specs.Represents.{Memory};
ghost use Rattle.drive.specs.Answers.{think_answer};
ghost use Rattle.drive.specs.Looking.{turned};
ghost use Rattle.drive.specs.Owning.{DriveMemory, Agrees};
ghost use Rattle.drive.specs.Thinking.{think_refusal, phase_after, ThinksAs};

use crate::call::{Call, Lent};
use crate::drive::Drive;
use crate::refusal::Refusal;
use board::square::Square;
use floor::Guide;
use measure::Measure;
use measure::queue::Entry;
use model::Phase;

// What a think comes to, handed on so that a caller needs no other crate.
pub use reconnect::state::Outcome;

impl<G: Guide> Drive<G> {
    // How many steps were done, and how the search ended; where it goes on the steps are used up.
    pub fn think<M: Measure>(
        &mut self,
        board: &mut [Square<M>],
        queue: &mut [Entry<M>],
        budget: u32,
    ) -> Result<(u32, Option<Outcome>), Refusal>
        ensures refused { IfErr result (λ e. (think_refusal self.old board.old queue.old budget (G.Lattice.grid self.old.guide) ≡ Some e) × (self.new ≡ self.old) × (board.new ≡ board.old) × (queue.new ≡ queue.old)) }
        ensures accepted { OnOk result (think_refusal self.old board.old queue.old budget (G.Lattice.grid self.old.guide) ≡ None) }
        ensures beyond { drop (G.Lattice.grid self.old.guide).size board.new ≡ drop (G.Lattice.grid self.old.guide).size board.old }
        ensures guide { self.new.guide ≡ self.old.guide }
        ensures own { (terrain : Ground) → Agrees (G.Lattice.grid self.old.guide) (G.Guide.aim self.old.guide) M.Measure.scale M.Measure.value M.Measure.kept (think budget) (think_answer result) (record { drive = self.old; board = board.old; queue = queue.old; terrain = terrain }) (record { drive = self.new; board = board.new; queue = queue.new; terrain = terrain }) }
    {
        let lent = Lent {
            records: board.len(),
            entries: Some(queue.len()),
            at: None,
        };
        self.check(Call::Think(budget), lent)?;
        let size = self.guide.size() as usize;
        Ok(self.steps(&mut board[..size], queue, budget))
    }

    // Steps of the search, until it ends or the budget is used.
    fn steps<M: Measure>(
        &mut self,
        board: &mut [Square<M>],
        queue: &mut [Entry<M>],
        budget: u32,
    ) -> (u32, Option<Outcome>)
        ensures drive { self.new ≡ turned self.old (phase_after self.old.phase result.1) self.new.search }
        ensures thinks { ThinksAs (G.Lattice.grid self.old.guide) (G.Guide.aim self.old.guide) M.Measure.scale M.Measure.value M.Measure.kept self.old.cell budget result.0 result.1 (record { search = self.old.search; board = board.old; queue = queue.old }) (record { search = self.new.search; board = board.new; queue = queue.new }) }
    {
        for done in 0..budget {
            if let Some(outcome) = self.search.step(&self.guide, self.cell, board, queue) {
                self.phase = match outcome {
                    Outcome::Joined(_, _) => Phase::Ready,
                    Outcome::Shut => Phase::Shut,
                };
                return (done + 1, Some(outcome));
            }
        }
        (budget, None)
    }
}
