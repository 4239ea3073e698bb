// The pen of records. It writes into a buffer that is lent with each call, and is itself only where it stands.
//
// A record that was begun is closed by `done` or `shut`, or given up by `abandon`. Each of them takes the pen,
// so that no row can follow, and a pen that is let go in any other way is refused by the proof.
ghost use Rattle.std.specs.Prelude.{◌≡◌, ◌+◌, ◌≤◌, length as length_of, is_ok, if◌then◌else◌};
ghost use Rattle.filing.specs.declared.fault.PenFault.TheVariants as pen-fault;
ghost use Rattle.filing.specs.declared.pen.Ending.TheVariants.{Done, Shut};
ghost use Rattle.filing.specs.Written.{overwritten};
ghost use Rattle.filing.specs.Pen.{path_line, row_line, ending_word, LetGo, begin_answer, begin_lines, row_answer, next_line, after_row, close_answer, last_line, rows_fit, file_answer, record_text};

use crate::fault::PenFault;
use crate::write::{has_room, put_line};
use texts::heading::Heading;

// The bytes of each kind of line, with its byte 10.
const PATH_LINE: usize = 65;

const ROW_LINE: usize = 31;

const CLOSING_LINE: usize = 35;

// How a drive ended: at the goal, or shut in.
#[derive(Clone, Copy, PartialEq, Eq, Debug)]
pub enum Ending {
    Done,
    Shut,
}

impl Ending {
    // The word of the closing line.
    pub fn word(self) -> &'static str
        ensures { result.now ≡ ending_word self }
    {
        match self {
            Ending::Done => "DONE",
            Ending::Shut => "SHUT",
        }
    }
}

// A row after row 0: the cell, and the length so far.
#[derive(Clone, Copy, PartialEq, Eq, Debug)]
pub struct Row {
    pub cell: u32,
    pub length: u32,
}

// Plain numbers and no buffer, by rule: the buffer is lent with each call, and `drop` lets no open record go.
pub struct Pen {
    // The bytes written so far.
    at: usize,
    // The last row's number and length.
    row: u32,
    length: u32,
}

impl Drop for Pen {
    fn drop(self)
        requires { LetGo self }
    {
        let Pen {
            at: _,
            row: _,
            length: _,
        } = self;
    }
}

// A record that could not be closed: its pen, which stands where it stood, and why.
pub struct Unclosed {
    pub pen: Pen,
    pub fault: PenFault,
}

impl Unclosed {
    // Gives the record up, and says why it could not be closed.
    pub fn give_up(self) -> PenFault
        ensures { result ≡ self.fault }
    {
        let Unclosed { pen, fault } = self;
        pen.abandon();
        fault
    }
}

// Each call's clause `bytes` says which bytes are new; one definition for all would hide that.
impl Pen {
    // Writes the first line and row 0, the start.
    pub fn begin(heading: &Heading, buffer: &mut [u8]) -> Result<Pen, PenFault>
        ensures answer { result ≡ begin_answer heading.now buffer.old }
        ensures bytes { buffer.new ≡ (if is_ok result then overwritten buffer.old 0 (begin_lines heading.now) else buffer.old) }
    {
        heading.check()?;
        if !has_room(buffer, 0, PATH_LINE + ROW_LINE + CLOSING_LINE) {
            return Err(PenFault::Full);
        }
        let at = put_start(buffer, heading);
        Ok(Pen {
            at,
            row: 0,
            length: 0,
        })
    }

    // Writes the next row.
    pub fn row(&mut self, buffer: &mut [u8], cell: u32, length: u32) -> Result<(), PenFault>
        ensures answer { result ≡ row_answer self.old buffer.old }
        ensures pen { self.new ≡ (if is_ok result then after_row self.old length else self.old) }
        ensures bytes { buffer.new ≡ (if is_ok result then overwritten buffer.old self.old.at (next_line self.old cell length) else buffer.old) }
    {
        if self.row == u32::MAX || !has_room(buffer, self.at, ROW_LINE + CLOSING_LINE) {
            return Err(PenFault::Full);
        }
        self.row += 1;
        self.length = length;
        self.at = put_row(buffer, self.at, self.row, cell, length);
        Ok(())
    }

    // Closes the record of a drive that arrived, and gives the bytes of the whole record.
    // By a rule of the project a pen is spent by `done`, `shut` or `abandon`, so these are two calls.
    pub fn done(self, buffer: &mut [u8], rock: u32) -> Result<usize, Unclosed>
        ensures answer { result ≡ close_answer self buffer.old }
        ensures bytes { buffer.new ≡ (if is_ok result then overwritten buffer.old self.at (last_line Done self rock) else buffer.old) }
    {
        self.close(buffer, Ending::Done, rock)
    }

    // Closes the record of a drive that was shut in, and gives the bytes of the whole record.
    pub fn shut(self, buffer: &mut [u8], rock: u32) -> Result<usize, Unclosed>
        ensures answer { result ≡ close_answer self buffer.old }
        ensures bytes { buffer.new ≡ (if is_ok result then overwritten buffer.old self.at (last_line Shut self rock) else buffer.old) }
    {
        self.close(buffer, Ending::Shut, rock)
    }

    // Gives the record up, and writes nothing.
    pub fn abandon(self) {
        let Pen {
            at: _,
            row: _,
            length: _,
        } = self;
    }

    fn close(self, buffer: &mut [u8], ending: Ending, rock: u32) -> Result<usize, Unclosed>
        ensures answer { result ≡ close_answer self buffer.old }
        ensures bytes { buffer.new ≡ (if is_ok result then overwritten buffer.old self.at (last_line ending self rock) else buffer.old) }
    {
        if !has_room(buffer, self.at, CLOSING_LINE) {
            return Err(Unclosed {
                pen: self,
                fault: PenFault::Full,
            });
        }
        let Pen { at, row, length } = self;
        let word = ending.word().as_bytes();
        Ok(put_line(buffer, at, word, &[row, length, rock]))
    }
}

// Writes the first line and row 0, and gives the place behind them.
fn put_start(buffer: &mut [u8], heading: &Heading) -> usize
    requires { 96 ≤ length_of buffer.old }
    ensures place { result ≡ 96 }
    ensures bytes { buffer.new ≡ overwritten buffer.old 0 (begin_lines heading.now) }
{
    let end = put_path(buffer, heading);
    put_row(buffer, end, 0, heading.start, 0)
}

// Writes the first line, and gives the place behind it.
fn put_path(buffer: &mut [u8], heading: &Heading) -> usize
    requires { 65 ≤ length_of buffer.old }
    ensures place { result ≡ 65 }
    ensures bytes { buffer.new ≡ overwritten buffer.old 0 (path_line heading.now) }
{
    let numbers = [
        heading.width,
        heading.height,
        heading.start,
        heading.goal,
        heading.neighbours,
        heading.measure,
    ];
    put_line(buffer, 0, b"PATH", &numbers)
}

// Writes a row from `at` on, and gives the place behind it.
fn put_row(buffer: &mut [u8], at: usize, number: u32, cell: u32, length: u32) -> usize
    requires { at + 31 ≤ length_of buffer.old }
    ensures place { result ≡ at + 31 }
    ensures bytes { buffer.new ≡ overwritten buffer.old at (row_line number cell length) }
{
    put_line(buffer, at, b"", &[number, cell, length])
}

// Writes a whole record, with these rows after row 0, and gives its bytes.
pub fn file(
    heading: &Heading,
    rows: &[Row],
    ending: Ending,
    rock: u32,
    buffer: &mut [u8],
) -> Result<usize, PenFault>
    ensures answer { result ≡ file_answer heading.now rows.now buffer.old }
    ensures bytes { buffer.new ≡ (if is_ok result then overwritten buffer.old 0 (record_text heading.now rows.now ending rock) else buffer.old) }
{
    heading.check()?;
    if !rows_fit(buffer, rows) {
        return Err(PenFault::Full);
    }
    let mut pen = Pen::begin(heading, buffer)?;
    for row in rows {
        // By hand, since `?` would let an open pen go.
        if let Err(fault) = pen.row(buffer, row.cell, row.length) {
            pen.abandon();
            return Err(fault);
        }
    }
    pen.close(buffer, ending, rock).map_err(Unclosed::give_up)
}

// Whether there are bytes for a record with these rows, and numbers for them.
fn rows_fit(buffer: &[u8], rows: &[Row]) -> bool
    ensures { result ≡ rows_fit (length_of rows.now) (length_of buffer.now) }
{
    let fixed = PATH_LINE + ROW_LINE + CLOSING_LINE;
    u32::try_from(rows.len()).is_ok() && fixed + ROW_LINE * rows.len() <= buffer.len()
}

#[cfg(test)]
mod tests {
    use super::*;
    use std::test::Fail;

    const HEADING: Heading = Heading {
        width: 2,
        height: 1,
        start: 0,
        goal: 1,
        neighbours: 4,
        measure: 1,
    };

    const RECORD: &[u8; 162] = b"PATH         2         1         0         1         4         1
         0         0         0
         1         1         5
DONE         1         5         0
";

    #[test]
    fn two_rows(rt: HostRuntime) {
        let mut buffer = [0; 162];
        let rows = [Row { cell: 1, length: 5 }];
        assert_eq!(rt;
            file(&HEADING, &rows, Ending::Done, 0, &mut buffer),
            Ok(162)
        );
        assert!(rt; buffer == *RECORD);
    }

    #[test]
    fn too_short(rt: HostRuntime) -> Result<(), Fail> {
        let mut buffer = [0; 161];
        assert!(rt; Pen::begin(&HEADING, &mut buffer[0..130]).is_err());
        let mut pen = Pen::begin(&HEADING, &mut buffer)?;
        let refused = pen.row(&mut buffer, 1, 5);
        pen.abandon();
        assert_eq!(rt; refused, Err(PenFault::Full));
        Ok(())
    }
}
