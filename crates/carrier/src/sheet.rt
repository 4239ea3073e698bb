// The sheet carrier: its rock is given by a sheet, one byte for each cell.
ghost use Rattle.std.specs.Prelude.{◌≡◌, ◌≤◌, length, IfOk, IfErr, None, vec_len, ◌==◌};
ghost use Rattle.std.specs.Result.{result_err};
ghost use Rattle.carrier.specs.Sheets.{sheet_rock, foreign, first_foreign, sheet_refusal};
ghost use Rattle.carrier.specs.Unfits.{Refuses};
ghost use Rattle.std.proofs.Common.{arith};
ghost use Rattle.carrier.specs.SheetsLemmas.{rock_within};

use crate::rocks::{Map, Rocks};
use crate::rover::{Rover, check_start};
use crate::unfit::Unfit;
use floor::Lattice;
use std::alloc::Global;

pub type Sheet<L> = Rover<L, Bytes>;

// The sheet's bytes.
#[derive(Drop)]
pub struct Bytes {
    bytes: Vec<u8>,
}

impl Rocks for Bytes {
    ghost rock = { λ b. sheet_rock b.bytes.items };

    fn is_rock(&self, cell: u32) -> bool {
        is_rock_at(&self.bytes, cell)
    }
}

impl Map for Bytes {
    ghost cells = { λ b. vec_len b.bytes };

    ghost within = { λ b a e. omega (arith, rock_within b.bytes.items a e, b.bytes.ok.0) };
}

// Whether the sheet's byte of a cell is rock.
fn is_rock_at(sheet: &[u8], cell: u32) -> bool
    ensures { result ≡ sheet_rock sheet.now cell }
{
    sheet
        .get(cell as usize)
        .is_some_and(|byte| is_rock_byte(*byte))
}

// Whether a sheet byte is rock. Here and below bytes are matched as letters, by a rule of the project.
fn is_rock_byte(byte: u8) -> bool
    ensures { result ≡ (byte == 35) }
{
    matches!(byte as char, '#')
}

// Whether a sheet byte is neither passable nor rock. The site reader asks it too, and knows no carriers.
fn is_foreign(byte: u8) -> bool
    ensures { result ≡ foreign byte }
{
    !matches!(byte as char, '.' | '#')
}

impl<L: Lattice + Drop> Sheet<L> {
    // A carrier on its start, over the floor of a lattice whose rock is given by the sheet, of which it keeps a copy.
    pub fn new(heap: Global, lattice: L, sheet: &[u8], start: u32) -> Result<Sheet<L>, Unfit>
        ensures made { IfOk result (λ c. (sheet_refusal (L.Lattice.grid lattice).size sheet.now start ≡ None) × (c.floor ≡ lattice) × (c.rocks.bytes.items ≡ sheet.now) × (c.at ≡ start)) }
        ensures refused { IfErr result (λ e. Refuses (sheet_refusal (L.Lattice.grid lattice).size sheet.now start) e) }
    {
        check(lattice.size(), sheet, start)?;
        let bytes = Vec::from_slice(heap, sheet)?;
        Ok(Rover {
            floor: lattice,
            rocks: Bytes { bytes },
            at: start,
        })
    }
}

// A sheet has to have one byte for each cell of a floor of this size, each passable or rock, and a start on the floor and off rock.
fn check(size: u32, sheet: &[u8], start: u32) -> Result<(), Unfit>
    requires { size ≤ 4096 }
    ensures { result_err result ≡ sheet_refusal size sheet.now start }
{
    if sheet.len() != size as usize {
        return Err(Unfit::SheetLength);
    }
    if let Some(cell) = foreign_cell(sheet) {
        return Err(Unfit::Foreign(cell));
    }
    check_start(size, start, is_rock_at(sheet, start))
}

// The first cell whose byte is neither passable nor rock.
fn foreign_cell(sheet: &[u8]) -> Option<u32>
    requires { length sheet.now ≤ 4096 }
    ensures { result ≡ first_foreign sheet.now 0 }
{
    sheet
        .iter()
        .position(|byte| is_foreign(*byte))
        .map(|cell| cell as u32)
}
