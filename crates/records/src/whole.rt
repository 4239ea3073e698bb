// Whole records, from their first line to their closing line.
ghost use Rattle.std.specs.Prelude.{◌≡◌};
ghost use Rattle.std.specs.Result.{result_map_both};
ghost use Rattle.records.specs.Records.{record_of};
ghost use Rattle.records.specs.Format.{summary, RecordLaw};

use crate::fault::RecordFault;
use crate::line::Next;
use crate::reader::Reader;
use filing::pen::Ending;
use texts::heading::Heading;

// The numbers of a record's first line and of its closing line.
#[derive(Clone, Copy, PartialEq, Eq, Debug)]
pub struct Record {
    pub heading: Heading,
    pub ending: Ending,
    pub moves: u32,
    pub length: u32,
    pub rock: u32,
}

// Reads a whole record.
#[tactic(auto, using(crate::proofs::Below::reading))]
pub fn read_record(text: &[u8]) -> Result<Record, RecordFault>
    ensures value { result ≡ result_map_both summary (λ e. e) (record_of text.now) }
    ensures law { RecordLaw text.now }
{
    let mut reader = Reader::open(text)?;
    let closing = loop {
        if let Next::End(closing) = reader.next()? {
            break closing;
        }
    };
    Ok(Record {
        heading: reader.heading(),
        ending: closing.ending,
        moves: reader.row(),
        length: reader.length(),
        rock: closing.rock,
    })
}
