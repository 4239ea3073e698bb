// Beginning a drive.
ghost use Rattle.std.specs.Prelude.{◌≡◌, ◌≤◌, length, Some, None};
ghost use Rattle.model.specs.Plain.{vet_number, fresh};
ghost use Rattle.model.specs.Promise.{Keeps};
ghost use Rattle.model.specs.Worlds.{over};
ghost use Rattle.drive.specs.Refusals.{allowed};
ghost use Rattle.drive.specs.Beginning.{vetted_number, vet_refusal, begun, fresh_square, Laid, Stands};
ghost use Rattle.drive.specs.Owning.{DriveMemory, Own};

use crate::call::Lent;
use crate::drive::Drive;
use crate::refusal::Refusal;
use board::square::{Square, put};
use carrier::Carrier;
use floor::Guide;
use measure::Measure;
use measure::queue::Entry;
use model::Mark;

// Refuses a goal that is no cell, then a board of fewer records than cells, then a queue of under 8 entries for each cell and one more.
pub fn vet<C: Carrier, G: Guide, M: Measure>(
    _carrier: &C,
    guide: &G,
    board: &[Square<M>],
    queue: &[Entry<M>],
) -> Result<(), Refusal>
    ensures value { result ≡ allowed (vet_refusal (G.Lattice.grid guide.now).size (G.Guide.aim guide.now).goal (length board.now) (length queue.now)) }
    ensures number { vetted_number result ≡ vet_number (G.Lattice.grid guide.now).size (G.Guide.aim guide.now).goal (length board.now) (length queue.now) }
{
    let size = guide.size();
    if guide.goal() >= size {
        return Err(Refusal::GoalOffFloor);
    }
    let lent = Lent {
        records: board.len(),
        entries: Some(queue.len()),
        at: None,
    };
    lent.check_room(size)
}

// A new drive from the carrier's cell, or a void one where vet refuses. The first records of the board, one for each cell, are laid out anew.
pub fn begin<C: Carrier, G: Guide, M: Measure>(
    carrier: &C,
    guide: G,
    board: &mut [Square<M>],
    queue: &[Entry<M>],
) -> Drive<G>
    ensures made { result ≡ begun guide (vet_refusal (G.Lattice.grid guide).size (G.Guide.aim guide).goal (length board.old) (length queue.now)) (C.Carrier.terrain carrier.now).at (G.Guide.aim guide).goal }
    ensures laid { result.void ≡ None → Laid (G.Lattice.grid guide) (G.Guide.aim guide) (C.Carrier.terrain carrier.now).at (G.Lattice.grid guide).size board.old board.new }
    ensures untouched { (e : Refusal) → result.void ≡ Some e → board.new ≡ board.old }
    ensures fresh { result.void ≡ None → Stands (over (G.Lattice.grid guide) (C.Carrier.terrain carrier.now) (G.Guide.aim guide) M.Measure.scale) M.Measure.value result board.new (fresh (over (G.Lattice.grid guide) (C.Carrier.terrain carrier.now) (G.Guide.aim guide) M.Measure.scale)) }
    ensures own { result.void ≡ None → G.Lattice.grid guide ≡ C.Floor.Lattice.grid (C.Carrier.floor carrier.now) → Own (over (G.Lattice.grid guide) (C.Carrier.terrain carrier.now) (G.Guide.aim guide) M.Measure.scale) M.Measure.value M.Measure.kept (record { drive = result; board = board.new; queue = queue.now; terrain = C.Carrier.terrain carrier.now }) (fresh (over (G.Lattice.grid guide) (C.Carrier.terrain carrier.now) (G.Guide.aim guide) M.Measure.scale)) 0 }
    ensures promise { result.void ≡ None → G.Lattice.grid guide ≡ C.Floor.Lattice.grid (C.Carrier.floor carrier.now) → Keeps (over (G.Lattice.grid guide) (C.Carrier.terrain carrier.now) (G.Guide.aim guide) M.Measure.scale) }
{
    if let Err(refusal) = vet(carrier, &guide, board, queue) {
        return Drive::void(guide, refusal);
    }
    let start = carrier.cell();
    lay_out(&guide, start, board);
    Drive::at(guide, start)
}

// Lays out the record of each cell for a drive that begins, by `put`, which alone writes records.
fn lay_out<G: Guide, M: Measure>(guide: &G, start: u32, board: &mut [Square<M>])
    requires { (G.Lattice.grid guide.now).size ≤ length board.old }
    ensures { Laid (G.Lattice.grid guide.now) (G.Guide.aim guide.now) start (G.Lattice.grid guide.now).size board.old board.new }
{
    for cell in 0..guide.size() {
        put(board, cell, first_square(guide, start, cell));
    }
}

// The record of a cell where a drive begins.
fn first_square<G: Guide, M: Measure>(guide: &G, start: u32, cell: u32) -> Square<M>
    ensures { result ≡ fresh_square (G.Lattice.grid guide.now) (G.Guide.aim guide.now) start cell }
{
    let mark = if cell == start {
        Mark::Passable
    } else {
        Mark::Unseen
    };
    Square::new(mark, guide.lead(cell))
}
