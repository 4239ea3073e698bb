// The calls of a drive, and which of them is accepted when.
ghost use Rattle.std.specs.Prelude.{◌≡◌, ◌+◌, ◌*◌};
ghost use Rattle.drive.specs.Refusals.{allowed};
ghost use Rattle.drive.specs.Calls.{refuse_if, phase_refusal, lent_refusal, elsewhere, call_refusal};

use crate::drive::Drive;
use crate::refusal::Refusal;
use floor::Guide;
use model::Phase;

// A think is given a number of steps.
#[derive(Clone, Copy, PartialEq, Eq, Debug)]
pub enum Call {
    Look,
    Think(u32),
    Go,
    Tell,
}

// How many entries the queue has to have over a floor of so many cells: eight for each, and one more.
pub fn queue_entries(size: u32) -> usize
    ensures { result ≡ 8 * size + 1 }
{
    8 * size as usize + 1
}

// What a call is lent: so many records of the board, so many entries of the queue if any, and a carrier on a cell if any.
#[derive(Clone, Copy)]
pub(crate) struct Lent {
    pub(crate) records: usize,
    pub(crate) entries: Option<usize>,
    pub(crate) at: Option<u32>,
}

impl Lent {
    // Refuses a board of fewer records than cells, then a queue of too few entries; a call that is lent no queue needs none.
    pub(crate) fn check_room(self, size: u32) -> Result<(), Refusal>
        ensures { result ≡ allowed (lent_refusal self size) }
    {
        if self.records < size as usize {
            return Err(Refusal::ShortBoard);
        }
        let needed = queue_entries(size);
        if self.entries.is_some_and(|entries| entries < needed) {
            return Err(Refusal::ShortQueue);
        }
        Ok(())
    }

    // Refuses a carrier on another cell; a call that is lent none needs none.
    fn check_place(self, cell: u32) -> Result<(), Refusal>
        ensures { result ≡ allowed (refuse_if (elsewhere self.at cell) Refusal.WrongCell) }
    {
        if self.at.is_some_and(|at| at != cell) {
            return Err(Refusal::WrongCell);
        }
        Ok(())
    }
}

impl<G: Guide> Drive<G> {
    // Refuses every call of a void drive, then a short board, a short queue, a call not of its phase, a think of no steps,
    // and a carrier on another cell.
    pub(crate) fn check(&self, call: Call, lent: Lent) -> Result<(), Refusal>
        ensures { result ≡ allowed (call_refusal self.now call lent (G.Lattice.grid self.now.guide).size) }
    {
        if let Some(refusal) = self.void {
            return Err(refusal);
        }
        lent.check_room(self.guide.size())?;
        admit(self.phase, call)?;
        lent.check_place(self.cell)
    }
}

// Before the end each phase accepts one call besides tell, and after it none. One match on both, by a rule of the project.
fn admit(phase: Phase, call: Call) -> Result<(), Refusal>
    ensures { result ≡ allowed (phase_refusal phase call) }
{
    match (phase, call) {
        (Phase::Searching, Call::Think(0)) => Err(Refusal::NoSteps),
        (Phase::Unseen, Call::Look)
        | (Phase::Searching, Call::Think(_))
        | (Phase::Ready, Call::Go)
        | (_, Call::Tell) => Ok(()),
        _ => Err(Refusal::WrongPhase),
    }
}
