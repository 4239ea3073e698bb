// What can be wrong with a record that is read. A fault holds the fault of the layer below it.
ghost use Rattle.std.specs.Prelude.{◌≡◌};
ghost use Rattle.records.specs.declared.fault.RecordFault.TheVariants as record-fault;
ghost use Rattle.records.specs.Faults.{record_report};

use texts::fault::{HeadingFault, Place, Report, TextFault};

// A text that is no record.
#[derive(Clone, Copy, PartialEq, Eq, Debug)]
pub enum RecordFault {
    Text(TextFault),
    Heading(HeadingFault),
    // A row's number, row 0 or the closing line is not what it has to be.
    Unequal(Place),
}

impl From<RecordFault> for Report {
    ghost from_gives = { λ fault r. r ≡ record_report fault };

    fn from(fault: RecordFault) -> Report {
        match fault {
            RecordFault::Text(below) => Report::from(below),
            RecordFault::Heading(below) => Report::from(below),
            RecordFault::Unequal(place) => Report::at(31, place),
        }
    }
}

impl From<TextFault> for RecordFault {
    ghost from_gives = { λ below r. r ≡ record-fault.Text below };

    fn from(below: TextFault) -> RecordFault {
        RecordFault::Text(below)
    }
}

impl From<HeadingFault> for RecordFault {
    ghost from_gives = { λ below r. r ≡ record-fault.Heading below };

    fn from(below: HeadingFault) -> RecordFault {
        RecordFault::Heading(below)
    }
}
