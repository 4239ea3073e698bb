// The lines of a record, each checked on its own.
ghost use Rattle.std.specs.Prelude.{◌≡◌, ◌≤◌};
ghost use Rattle.texts.specs.Lines.{line_text};
ghost use Rattle.records.specs.Reading.{record_heading, three_fields, row_fields_of, equal_check, start_row, next_row, announced, closing_line_of, next_of};

use crate::fault::RecordFault;
use filing::pen::{Ending, Row};
use texts::fault::TextFault;
use texts::heading::Heading;
use texts::lines::Line;

// The characters of a row.
const ROW: u16 = 30;

// Where the fields of a row begin.
const NUMBER: u32 = 1;

const CELL: u32 = 11;

const FAR: u32 = 21;

// Where the fields of the closing line begin, behind a word of four letters, and how many there are.
const MOVES: u32 = 5;

const LENGTH: u32 = 15;

const FIELDS: u8 = 3;

// What a closing line says beside the last row's number and length: how the drive ended, and the rock found.
#[derive(Clone, Copy, PartialEq, Eq, Debug)]
pub struct Closing {
    pub ending: Ending,
    pub rock: u32,
}

// The last row that was read: its number, and the length so far.
#[derive(Clone, Copy)]
pub(crate) struct LastRow {
    pub number: u32,
    pub length: u32,
}

// A line below row 0: one more row, or the closing line.
#[derive(Clone, Copy, PartialEq, Eq, Debug)]
pub enum Next {
    Row(Row),
    End(Closing),
}

// The first line. Both steps stand in the site reader too; each `?` converts into the reader's own fault.
#[tactic(auto, unfolding(crate::specs::Reading::record_heading))]
pub(crate) fn read_heading(line: &Line<'_>) -> Result<Heading, RecordFault>
    ensures { result ≡ record_heading (line_text line.now) }
{
    let heading = Heading::read(line, "PATH")?;
    heading.check()?;
    Ok(heading)
}

// Row 0: the start, at length 0.
#[tactic(auto, unfolding(crate::specs::Reading::start_row))]
pub(crate) fn check_start(line: &Line<'_>, heading: &Heading) -> Result<(), RecordFault>
    ensures { result ≡ start_row heading.now (line_text line.now) }
{
    let (number, cell, length) = row_fields(line)?;
    check_equal(line, NUMBER, number, 0)?;
    check_equal(line, CELL, cell, u64::from(heading.start))?;
    check_equal(line, FAR, length, 0)
}

// A line below row 0, behind this row. Its first byte alone decides what it is.
pub(crate) fn read_next(line: &Line<'_>, last: LastRow) -> Result<Next, RecordFault>
    ensures { result ≡ next_of last.number last.length (line_text line.now) }
{
    match announced_by(line.bytes) {
        Some(ending) => {
            read_closing(line, ending, last).map(|rock| Next::End(Closing { ending, rock }))
        }
        None => read_row(line, last.number).map(Next::Row),
    }
}

// The ending that a line announces by its first byte; any other is a row.
fn announced_by(bytes: &[u8]) -> Option<Ending>
    ensures { result ≡ announced bytes.now }
{
    match bytes {
        [b'D', ..] => Some(Ending::Done),
        [b'S', ..] => Some(Ending::Shut),
        _ => None,
    }
}

// The row after the one of this number.
#[tactic(auto, unfolding(crate::specs::Reading::next_row))]
fn read_row(line: &Line<'_>, last: u32) -> Result<Row, RecordFault>
    ensures { result ≡ next_row last (line_text line.now) }
{
    let (number, cell, length) = row_fields(line)?;
    check_equal(line, NUMBER, number, u64::from(last) + 1)?;
    Ok(Row { cell, length })
}

// The rock found, on a closing line behind this row.
#[tactic(auto, unfolding(crate::specs::Reading::closing_line_of))]
fn read_closing(line: &Line<'_>, ending: Ending, last: LastRow) -> Result<u32, RecordFault>
    ensures { result ≡ closing_line_of ending last.number last.length (line_text line.now) }
{
    line.check_word(ending.word(), FIELDS)?;
    let (moves, length, rock) = fields_from(line, MOVES)?;
    check_equal(line, MOVES, moves, u64::from(last.number))?;
    check_equal(line, LENGTH, length, u64::from(last.length))?;
    Ok(rock)
}

// The number, cell and length on a row.
#[tactic(auto, unfolding(crate::specs::Reading::row_fields_of))]
fn row_fields(line: &Line<'_>) -> Result<(u32, u32, u32), TextFault>
    ensures { result ≡ row_fields_of (line_text line.now) }
{
    line.check_length(ROW)?;
    fields_from(line, NUMBER)
}

// Three fields from this column on; a tuple, since each caller takes it apart into names of its own.
#[tactic(auto, unfolding(crate::specs::Reading::three_fields))]
fn fields_from(line: &Line<'_>, column: u32) -> Result<(u32, u32, u32), TextFault>
    requires { column ≤ 5 }
    ensures { result ≡ three_fields (line_text line.now) column }
{
    let first = line.number(column)?;
    let second = line.number(column + 10)?;
    let third = line.number(column + 20)?;
    Ok((first, second, third))
}

// Refuses a number that is not the one it has to be.
fn check_equal(line: &Line<'_>, column: u32, number: u32, right: u64) -> Result<(), RecordFault>
    ensures { result ≡ equal_check (line_text line.now) column number right }
{
    if u64::from(number) == right {
        Ok(())
    } else {
        Err(RecordFault::Unequal(line.place(column)))
    }
}
