// A step of the carrier along the pointer of its cell.
ghost use Rattle.std.specs.Prelude.{◌≡◌, List, IfOk, IfErr, Some, None};
ghost use Rattle.model.specs.Plain.{go};
ghost use Rattle.measure.specs.declared.queue.Entry.{Entry};
ghost use Rattle.drive.specs.Answers.{go_answer};
ghost use Rattle.board.specs.Board.{pointer_at};
ghost use Rattle.drive.specs.Going.{go_refusal, Stepped, moved_to};
ghost use Rattle.drive.specs.Owning.{DriveMemory, Agrees};

use crate::call::{Call, Lent};
use crate::drive::{Drive, phase_at};
use crate::refusal::Refusal;
use board::square::{Square, pointer};
use carrier::Carrier;
use floor::Guide;
use measure::Measure;

impl<G: Guide> Drive<G> {
    // The cell that the carrier stepped onto.
    pub fn go<C: Carrier, M: Measure>(
        &mut self,
        carrier: &mut C,
        board: &[Square<M>],
    ) -> Result<u32, Refusal>
        ensures refused { IfErr result (λ e. (go_refusal self.old board.now (G.Lattice.grid self.old.guide) (C.Floor.Lattice.grid (C.Carrier.floor carrier.old)) (C.Carrier.terrain carrier.old) ≡ Some e) × (self.new ≡ self.old) × (carrier.new ≡ carrier.old)) }
        ensures accepted { IfOk result (λ cell. (go_refusal self.old board.now (G.Lattice.grid self.old.guide) (C.Floor.Lattice.grid (C.Carrier.floor carrier.old)) (C.Carrier.terrain carrier.old) ≡ None) × Stepped self.old board.now (C.Floor.Lattice.grid (C.Carrier.floor carrier.old)) (C.Carrier.terrain carrier.old) (C.Carrier.terrain carrier.new) cell × (self.new ≡ moved_to self.old cell ((G.Lattice.grid self.old.guide).cost (pointer_at board.now self.old.cell)) (G.Guide.aim self.old.guide).goal)) }
        ensures guide { self.new.guide ≡ self.old.guide }
        ensures stays { C.Carrier.floor carrier.new ≡ C.Carrier.floor carrier.old }
        ensures own { G.Lattice.grid self.old.guide ≡ C.Floor.Lattice.grid (C.Carrier.floor carrier.old) → (queue : List (Entry M)) → Agrees (G.Lattice.grid self.old.guide) (G.Guide.aim self.old.guide) M.Measure.scale M.Measure.value M.Measure.kept go (go_answer result) (record { drive = self.old; board = board.now; queue = queue; terrain = C.Carrier.terrain carrier.old }) (record { drive = self.new; board = board.now; queue = queue; terrain = C.Carrier.terrain carrier.new }) }
    {
        let lent = Lent {
            records: board.len(),
            entries: None,
            at: Some(carrier.cell()),
        };
        self.check(Call::Go, lent)?;
        let direction = pointer(board, self.cell);
        if !carrier.step(direction) {
            return Err(Refusal::StepRefused);
        }
        let cell = carrier.cell();
        let cost = self.guide.cost(direction);
        self.moved(cell, cost);
        Ok(cell)
    }

    // Counts a move onto a cell.
    fn moved(&mut self, cell: u32, cost: u8)
        ensures { self.new ≡ moved_to self.old cell cost (G.Guide.aim self.old.guide).goal }
    {
        self.phase = phase_at(&self.guide, cell);
        self.cell = cell;
        self.moves = self.moves.saturating_add(1);
        self.length = self.length.saturating_add(u32::from(cost));
    }
}
