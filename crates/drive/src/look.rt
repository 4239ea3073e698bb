// Feeling the neighbours of the carrier's cell.
ghost use Rattle.std.specs.Prelude.{◌≡◌, ◌<◌, length, IfOk, IfErr, Some, None};
ghost use Rattle.model.specs.Ground.{feels};
ghost use Rattle.model.specs.Plain.{look};
ghost use Rattle.drive.specs.Answers.{look_answer};
ghost use Rattle.drive.specs.Looking.{look_refusal, GoesOn, Looked};
ghost use Rattle.drive.specs.Owning.{DriveMemory, Agrees};

use crate::call::{Call, Lent};
use crate::drive::Drive;
use crate::refusal::Refusal;
use board::around::{cut_around, mark_around, new_bits};
use board::square::{Square, pointer};
use carrier::Carrier;
use floor::Guide;
use measure::Measure;
use measure::queue::Entry;
use model::Phase;

impl<G: Guide> Drive<G> {
    // The felt byte, and how many of its rock cells are newly found. Pointers to those are cut;
    // where that leaves the carrier's own cell without a pointer, a search begins there.
    pub fn look<C: Carrier, M: Measure>(
        &mut self,
        carrier: &C,
        board: &mut [Square<M>],
        queue: &mut [Entry<M>],
    ) -> Result<(u8, u32), Refusal>
        ensures refused { IfErr result (λ e. (look_refusal self.old board.old queue.old (G.Lattice.grid self.old.guide) (C.Carrier.terrain carrier.now) ≡ Some e) × (self.new ≡ self.old) × (board.new ≡ board.old) × (queue.new ≡ queue.old)) }
        ensures accepted { IfOk result (λ a. (look_refusal self.old board.old queue.old (G.Lattice.grid self.old.guide) (C.Carrier.terrain carrier.now) ≡ None) × (a.0 ≡ feels (C.Floor.Lattice.grid (C.Carrier.floor carrier.now)) (C.Carrier.terrain carrier.now)) × Looked M.Measure.scale M.Measure.value M.Measure.kept (G.Lattice.grid self.old.guide) a.0 self.old self.new board.old board.new queue.old queue.new a.1) }
        ensures guide { self.new.guide ≡ self.old.guide }
        ensures own { G.Lattice.grid self.old.guide ≡ C.Floor.Lattice.grid (C.Carrier.floor carrier.now) → Agrees (G.Lattice.grid self.old.guide) (G.Guide.aim self.old.guide) M.Measure.scale M.Measure.value M.Measure.kept look (look_answer result) (record { drive = self.old; board = board.old; queue = queue.old; terrain = C.Carrier.terrain carrier.now }) (record { drive = self.new; board = board.new; queue = queue.new; terrain = C.Carrier.terrain carrier.now }) }
    {
        let lent = Lent {
            records: board.len(),
            entries: Some(queue.len()),
            at: Some(carrier.cell()),
        };
        self.check(Call::Look, lent)?;
        let felt = carrier.feel();
        let new = self.see(felt, board, queue);
        Ok((felt, new))
    }

    // Takes in a felt byte: how many of its rock cells are new.
    fn see<M: Measure>(&mut self, felt: u8, board: &mut [Square<M>], queue: &mut [Entry<M>]) -> u32
        requires { 0 < length queue.old }
        ensures { Looked M.Measure.scale M.Measure.value M.Measure.kept (G.Lattice.grid self.old.guide) felt self.old self.new board.old board.new queue.old queue.new result }
    {
        let fresh = new_bits(&self.guide, self.cell, felt, board);
        mark_around(&self.guide, self.cell, felt, board);
        cut_around(&self.guide, self.cell, fresh, board);
        let new = fresh.count_ones();
        self.found = self.found.saturating_add(new);
        self.go_on(board, queue);
        new
    }

    // With a pointer at the carrier's cell the drive is ready to go, and else a search begins.
    fn go_on<M: Measure>(&mut self, board: &mut [Square<M>], queue: &mut [Entry<M>])
        requires { 0 < length queue.old }
        ensures { GoesOn M.Measure.scale M.Measure.value M.Measure.kept self.old self.new board.old board.new queue.old queue.new }
    {
        if pointer(board, self.cell) == 0 {
            self.phase = Phase::Searching;
            self.search.begin(self.cell, board, queue);
        } else {
            self.phase = Phase::Ready;
        }
    }
}
