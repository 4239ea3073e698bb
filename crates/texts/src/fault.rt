// What can be wrong with a text and with its first line, and how a fault is reported.
ghost use Rattle.std.specs.Prelude.{◌≡◌};
ghost use Rattle.texts.specs.Faults.{text_report, heading_report};

// A place in a text: the line, and the column in it, each counted from 1.
#[derive(Clone, Copy, PartialEq, Eq, Debug)]
pub struct Place {
    pub line: u32,
    pub column: u32,
}

// A text that does not have the lines, words and fields of its format.
#[derive(Clone, Copy, PartialEq, Eq, Debug)]
pub enum TextFault {
    // A line is too short, too long or unended.
    Length(Place),
    // A line begins with another word.
    Word(Place),
    // A field holds no number.
    Field(Place),
    // The text ends early or goes on.
    Extent(Place),
}

// A first line whose numbers name no floor.
#[derive(Clone, Copy, PartialEq, Eq, Debug)]
pub enum HeadingFault {
    // The neighbours or the measure are unknown.
    Unknown(Place),
    // The width or the height is not 1 to 64.
    Size(Place),
}

// A fault by its number, and by line and column, which are 0 where it has none.
// Numbers and no options, since this is what a program prints.
#[derive(Clone, Copy, PartialEq, Eq, Debug)]
pub struct Report {
    pub number: u32,
    pub line: u32,
    pub column: u32,
}

impl Report {
    // The report of a fault at a place.
    pub fn at(number: u32, place: Place) -> Report
        ensures { result ≡ record { number = number; line = place.line; column = place.column } }
    {
        Report {
            number,
            line: place.line,
            column: place.column,
        }
    }

    // The report of a fault that has no place.
    pub fn nowhere(number: u32) -> Report
        ensures { result ≡ record { number = number; line = 0; column = 0 } }
    {
        Report {
            number,
            line: 0,
            column: 0,
        }
    }
}

impl From<TextFault> for Report {
    ghost from_gives = { λ fault r. r ≡ text_report fault };

    fn from(fault: TextFault) -> Report {
        match fault {
            TextFault::Length(place) => Report::at(20, place),
            TextFault::Word(place) => Report::at(21, place),
            TextFault::Field(place) => Report::at(22, place),
            TextFault::Extent(place) => Report::at(23, place),
        }
    }
}

impl From<HeadingFault> for Report {
    ghost from_gives = { λ fault r. r ≡ heading_report fault };

    fn from(fault: HeadingFault) -> Report {
        match fault {
            HeadingFault::Unknown(place) => Report::at(24, place),
            HeadingFault::Size(place) => Report::at(1, place),
        }
    }
}
