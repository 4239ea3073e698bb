// The six numbers on the first line of a site text and of a record.
ghost use Rattle.std.specs.Prelude.{◌≡◌, ok_or};
ghost use Rattle.texts.specs.declared.fault.HeadingFault.TheVariants.{Unknown};
ghost use Rattle.texts.specs.FirstLines.{heading_of};
ghost use Rattle.texts.specs.Headings.{heading_check, heading_field, lattice_kind, measure_kind, side_fault};
ghost use Rattle.texts.specs.Lines.{line_text};
ghost use Rattle.texts.specs.Words.{word_bytes};

use crate::fault::{HeadingFault, Place, TextFault};
use crate::lines::Line;
use floor::extent::{Extent, SizeFault};

// The numbers as they stand on the line: neighbours is 4 or 8, and measure 1 or 2, in one that is accepted.
// Plain numbers and no kinds, since the pen is handed them and has to refuse those that name none.
#[derive(Clone, Copy, PartialEq, Eq, Debug)]
pub struct Heading {
    pub width: u32,
    pub height: u32,
    pub start: u32,
    pub goal: u32,
    pub neighbours: u32,
    pub measure: u32,
}

// Where the fields of the first line begin, behind a word of four letters.
pub const WIDTH: u32 = 5;

pub const HEIGHT: u32 = 15;

pub const START: u32 = 25;

pub const GOAL: u32 = 35;

pub const NEIGHBOURS: u32 = 45;

pub const MEASURE: u32 = 55;

// How many fields a first line has.
const FIELDS: u8 = 6;

// The lattice that a first line names by its number of neighbours.
#[derive(Clone, Copy, PartialEq, Eq, Debug)]
pub enum LatticeKind {
    Streets,
    Kings,
}

// The measure that a first line names by its number.
#[derive(Clone, Copy, PartialEq, Eq, Debug)]
pub enum MeasureKind {
    Length,
    Sure,
}

// A number that names no kind.
#[derive(Clone, Copy, PartialEq, Eq, Debug)]
pub struct UnknownKind;

impl TryFrom<u32> for LatticeKind {
    type Error = UnknownKind;

    ghost try_from_gives = { λ neighbours r. r ≡ ok_or (lattice_kind neighbours) (record {}) };

    fn try_from(neighbours: u32) -> Result<LatticeKind, UnknownKind> {
        match neighbours {
            4 => Ok(LatticeKind::Streets),
            8 => Ok(LatticeKind::Kings),
            _ => Err(UnknownKind),
        }
    }
}

impl TryFrom<u32> for MeasureKind {
    type Error = UnknownKind;

    ghost try_from_gives = { λ measure r. r ≡ ok_or (measure_kind measure) (record {}) };

    fn try_from(measure: u32) -> Result<MeasureKind, UnknownKind> {
        match measure {
            1 => Ok(MeasureKind::Length),
            2 => Ok(MeasureKind::Sure),
            _ => Err(UnknownKind),
        }
    }
}

// A side that is no floor's is at fault in its field.
impl From<SizeFault> for HeadingFault {
    ghost from_gives = { λ fault r. r ≡ side_fault fault };

    fn from(fault: SizeFault) -> HeadingFault {
        HeadingFault::Size(in_column(match fault {
            SizeFault::Width => WIDTH,
            SizeFault::Height => HEIGHT,
        }))
    }
}

impl Heading {
    // The lattice with so many neighbours, or the fault of their field.
    pub fn lattice(&self) -> Result<LatticeKind, HeadingFault>
        ensures { result ≡ ok_or (lattice_kind self.now.neighbours) (Unknown (heading_field 5)) }
    {
        let unknown = HeadingFault::Unknown(in_column(NEIGHBOURS));
        LatticeKind::try_from(self.neighbours).map_err(|_| unknown)
    }

    // The measure of this number, or the fault of its field. One function over both kinds would be longer.
    pub fn measured_by(&self) -> Result<MeasureKind, HeadingFault>
        ensures { result ≡ ok_or (measure_kind self.now.measure) (Unknown (heading_field 6)) }
    {
        let unknown = HeadingFault::Unknown(in_column(MEASURE));
        MeasureKind::try_from(self.measure).map_err(|_| unknown)
    }

    // The numbers on a first line that begins with this word.
    #[tactic(auto, unfolding(crate::specs::FirstLines::heading_of))]
    pub fn read(line: &Line<'_>, word: &str) -> Result<Heading, TextFault>
        ensures { result ≡ heading_of (line_text line.now) (word_bytes word.now) }
    {
        line.check_word(word, FIELDS)?;
        Ok(Heading {
            width: line.number(WIDTH)?,
            height: line.number(HEIGHT)?,
            start: line.number(START)?,
            goal: line.number(GOAL)?,
            neighbours: line.number(NEIGHBOURS)?,
            measure: line.number(MEASURE)?,
        })
    }

    // Refuses an unknown number of neighbours or measure, then a width or height that is not 1 to 64.
    pub fn check(&self) -> Result<(), HeadingFault>
        ensures { result ≡ heading_check self.now }
    {
        self.lattice()?;
        self.measured_by()?;
        Extent::new(self.width, self.height)?;
        Ok(())
    }
}

// The place on the first line that begins in this column.
pub fn in_column(column: u32) -> Place
    ensures { result ≡ record { line = 1; column = column } }
{
    Place { line: 1, column }
}
