// What a drive keeps besides the board and the queue, which its calls are lent.
ghost use Rattle.std.specs.Prelude.{◌≡◌, Some, None};
ghost use Rattle.drive.specs.Beginning.{phase_at, uncounted, begun};

use crate::refusal::Refusal;
use floor::Guide;
use model::Phase;
use reconnect::state::Search;

// The guide, the phase, the cell on which the carrier was left, counts, and the search.
// A drive that begin refused is void: it keeps the refusal, and answers it to every call but tell.
// What the calls owe the plain drive (`own`) is of board, queue and carrier too, and so stands in each.
#[derive(Drop)]
pub struct Drive<G> {
    // That a call keeps it stands in look, think and go: a type speaks of one value, not of before and after.
    pub(crate) guide: G,
    // Beside phase void: with both as a Result, an accepted drive could still be in phase void.
    pub(crate) void: Option<Refusal>,
    pub(crate) phase: Phase,
    pub(crate) cell: u32,
    pub(crate) moves: u32,
    pub(crate) length: u32,
    pub(crate) found: u32,
    pub(crate) search: Search,
}

// The phase of a drive that has come onto a cell.
pub(crate) fn phase_at<G: Guide>(guide: &G, cell: u32) -> Phase
    ensures { result ≡ phase_at cell (G.Guide.aim guide.now).goal }
{
    if cell == guide.goal() {
        Phase::Arrived
    } else {
        Phase::Unseen
    }
}

impl<G: Guide> Drive<G> {
    // A drive that begins at a cell.
    pub(crate) fn at(guide: G, start: u32) -> Drive<G>
        ensures { result ≡ begun guide None start (G.Guide.aim guide).goal }
    {
        let phase = phase_at(&guide, start);
        Drive::uncounted(guide, None, phase, start)
    }

    // A drive that is refused.
    pub(crate) fn void(guide: G, refusal: Refusal) -> Drive<G>
        ensures { result ≡ begun guide (Some refusal) 0 0 }
    {
        Drive::uncounted(guide, Some(refusal), Phase::Void, 0)
    }

    // A drive that has counted nothing yet.
    fn uncounted(guide: G, void: Option<Refusal>, phase: Phase, cell: u32) -> Drive<G>
        ensures { result ≡ uncounted guide void phase cell }
    {
        Drive {
            guide,
            void,
            phase,
            cell,
            moves: 0,
            length: 0,
            found: 0,
            search: Search::none(),
        }
    }
}
