// Driving one site.
ghost use Rattle.std.specs.Prelude.{◌≡◌, ◌≤◌, [], length, OnOk};
ghost use Rattle.filing.specs.Pen.{pen_behind};
ghost use Rattle.survey.specs.Surveying.{Course};

use crate::fault::Fault;
use board::square::Square;
use carrier::Carrier;
use carrier::sheet::Sheet;
use drive::begin::begin;
use drive::call::queue_entries;
use drive::drive::Drive;
use drive::refusal::Refusal;
use filing::pen::Pen;
use floor::aiming::Aimed;
use floor::{Guide, Lattice, Metric};
use measure::Measure;
use measure::queue::Entry;
use model::{Mark, Phase};
use sites::site::Site;
use std::alloc::Global;

// A drive under way, its carrier, and the memory that its calls are lent.
#[derive(Drop)]
pub(crate) struct Trip<G, C, M> {
    drive: Drive<G>,
    carrier: C,
    board: Vec<Square<M>>,
    queue: Vec<Entry<M>>,
}

// A new drive over a site, by a lattice and a measure.
pub(crate) fn set_out<L: Metric + Copy, M: Measure + Clone>(
    heap: Global,
    lattice: L,
    site: &Site,
) -> Result<Trip<Aimed<L>, Sheet<L>, M>, Fault> {
    let sheet = site.cells(heap)?;
    // What the reader of the site accepted fits a carrier, so only memory can be wanting.
    let carrier = Sheet::new(heap, lattice, &sheet, site.heading.start).map_err(
        |_| Fault::NoMemory,
    )?;
    let cells = lattice.size() as usize;
    let mut board: Vec<Square<M>> = vec![in heap; Square::new(Mark::Unseen, 0); cells]?;
    let entry = Entry {
        value: M::zero(),
        cell: 0,
    };
    let queue = vec![in heap; entry; queue_entries(lattice.size())]?;
    let guide = Aimed::new(carrier.lattice(), site.heading.goal);
    let drive = begin(&carrier, guide, &mut board, &queue);
    Ok(Trip {
        drive,
        carrier,
        board,
        queue,
    })
}

impl<G: Guide, C: Carrier, M: Measure> Trip<G, C, M> {
    // How many rock cells the drive has found.
    pub(crate) fn rock_found(&self) -> u32 {
        self.drive.tell().found
    }

    // Looks and goes, with a row for each move, until the carrier stands on the goal.
    // It follows pointers that form a tree, so there are fewer moves than cells.
    pub(crate) fn follow(&mut self, pen: &mut Pen, buffer: &mut [u8]) -> Result<(), Fault>
        requires { (pen.old ≡ pen_behind []) × (96 ≤ length buffer.old) }
        ensures { OnOk result (Course buffer.old pen.new buffer.new) }
    {
        for _ in 0..self.board.len() {
            if self.drive.tell().phase == Phase::Arrived {
                return Ok(());
            }
            let cell = self.advance()?;
            pen.row(buffer, cell, self.drive.tell().length)?;
        }
        Err(Fault::Drive(Refusal::WrongPhase))
    }

    // A look and a step: the cell stepped onto.
    fn advance(&mut self) -> Result<u32, Fault> {
        self.drive
            .look(&self.carrier, &mut self.board, &mut self.queue)?;
        let cell = self.drive.go(&mut self.carrier, &self.board)?;
        Ok(cell)
    }
}
