// The reader of records. It hands out the rows one by one as it goes, and keeps nothing of them but the last
// one's number and length.
ghost use Rattle.std.specs.Prelude.{◌≡◌};
ghost use Rattle.std.specs.Result.{result_map_both};
ghost use Rattle.records.specs.Records.{standing, opened, item_of, moved_on};

use crate::fault::RecordFault;
use crate::line::{LastRow, Next, check_start, read_heading, read_next};
use texts::heading::Heading;
use texts::lines::Lines;

// Where a reader stands. No `Iterator`, since a refused call can be made again: there is no last item.
#[derive(Clone, Copy)]
pub struct Reader<'a> {
    heading: Heading,
    lines: Lines<'a>,
    last: LastRow,
}

impl<'a> Reader<'a> {
    // Reads the first line and row 0.
    #[tactic(auto, unfolding(crate::specs::Records::opened))]
    pub fn open(text: &'a [u8]) -> Result<Reader<'a>, RecordFault>
        ensures { result_map_both standing (λ e. e) result ≡ opened text.now }
    {
        let mut lines = Lines::new(text);
        let heading = read_heading(&lines.due()?)?;
        check_start(&lines.due()?, &heading)?;
        Ok(Reader {
            heading,
            lines,
            last: LastRow {
                number: 0,
                length: 0,
            },
        })
    }

    // The numbers of the first line.
    pub fn heading(&self) -> Heading
        ensures { result ≡ self.now.heading }
    {
        self.heading
    }

    // The number of the last row.
    pub fn row(&self) -> u32
        ensures { result ≡ self.now.last.number }
    {
        self.last.number
    }

    // The length at the last row.
    pub fn length(&self) -> u32
        ensures { result ≡ self.now.last.length }
    {
        self.last.length
    }

    // The next row, or the closing line, behind which the text has to end. A refusal leaves the reader where it stood.
    #[tactic(auto, using(crate::proofs::Items::row_counts), unfolding(crate::specs::Records::item_of))]
    pub fn next(&mut self) -> Result<Next, RecordFault>
        ensures value { result ≡ item_of (standing self.old) }
        ensures reader { standing self.new ≡ moved_on (standing self.old) result }
    {
        let mut lines = self.lines;
        let next = read_next(&lines.due()?, self.last)?;
        match next {
            Next::Row(row) => {
                self.last = LastRow {
                    number: self.last.number + 1,
                    length: row.length,
                };
            }
            Next::End(_) => lines.end()?,
        }
        self.lines = lines;
        Ok(next)
    }
}
