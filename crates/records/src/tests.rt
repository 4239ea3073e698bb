// Records that are read row by row, and records that are refused.
use crate::line::{Closing, Next};
use crate::reader::Reader;
use crate::whole::read_record;
use filing::pen::{Ending, Row};
use std::alloc::{AllocError, Global};
use std::test::Fail;
use texts::fault::Report;

const FIRST: &[u8] = b"PATH         2         1         0         1         4         1\n";

const START: &[u8] = b"         0         0         0\n";

const ROW: &[u8] = b"         1         1         5\n";

const DONE: &[u8] = b"DONE         1         5         0\n";

// The report on a record one of whose four lines is another, with zeros where it is accepted.
fn report(heap: Global, at: usize, other: &[u8]) -> Result<Report, AllocError> {
    let mut text = Vec::new(heap);
    for (i, line) in [FIRST, START, ROW, DONE].iter().enumerate() {
        text.extend_from_slice(if i == at { other } else { *line })?;
    }
    Ok(match read_record(&text) {
        Ok(_) => Report::nowhere(0),
        Err(fault) => Report::from(fault),
    })
}

#[test]
fn rows_come_one_by_one(rt: HostRuntime) -> Result<(), Fail> {
    let text = b"PATH         2         1         0         1         4         1
         0         0         0
         1         1         5
SHUT         1         5         3
";
    let Ok(mut reader) = Reader::open(text) else {
        return Err(Fail::new("refused"));
    };
    assert_eq!(rt; reader.heading().goal, 1);
    assert_eq!(rt; reader.row(), 0);
    assert_eq!(rt; reader.next(), Ok(Next::Row(Row { cell: 1, length: 5 })));
    assert_eq!(rt; reader.row(), 1);
    assert_eq!(rt; reader.length(), 5);
    let closing = Closing {
        ending: Ending::Shut,
        rock: 3,
    };
    assert_eq!(rt; reader.next(), Ok(Next::End(closing)));
    Ok(())
}

#[test]
fn a_record_of_a_large_floor_is_read(rt: HostRuntime) -> Result<(), Fail> {
    let first = b"PATH        64        64         0      4095         8         2\n";
    assert_eq!(rt; report(rt.alloc(), 0, first)?, Report::nowhere(0));
    assert_eq!(rt; report(rt.alloc(), 3, DONE)?, Report::nowhere(0));
    Ok(())
}

#[test]
fn other_first_lines_are_refused(rt: HostRuntime) -> Result<(), Fail> {
    let cases: [(&[u8], u32, u32); 5] = [
        (b"", 21, 1),
        (
            b"SITE         2         1         0         1         4         1\n",
            21,
            1,
        ),
        (
            b"PATH         2         1         0         1         4        01\n",
            22,
            55,
        ),
        (
            b"PATH         2         1         0         1         5         1\n",
            24,
            45,
        ),
        (
            b"PATH         2        65         0         1         4         1\n",
            1,
            15,
        ),
    ];
    for (other, number, column) in cases {
        let expected = Report {
            number,
            line: 1,
            column,
        };
        assert_eq!(rt; report(rt.alloc(), 0, other)?, expected);
    }
    Ok(())
}

#[test]
fn other_lines_below_are_refused(rt: HostRuntime) -> Result<(), Fail> {
    let cases: [(usize, &[u8], u32, u32, u32); 13] = [
        (1, b"         0         0\n", 20, 2, 21),
        (1, b"         1         0         0\n", 31, 2, 1),
        (1, b"         0         1         0\n", 31, 2, 11),
        (1, b"         0         0         5\n", 31, 2, 21),
        (2, b"         2         1         5\n", 31, 3, 1),
        (2, b"         1         x         5\n", 22, 3, 11),
        (2, b"", 31, 3, 5),
        (3, b"", 23, 4, 1),
        (3, b"DINE         1         5         0\n", 21, 4, 1),
        (3, b"DONE         1         5         0", 20, 4, 35),
        (3, b"DONE         2         5         0\n", 31, 4, 5),
        (3, b"SHUT         1         6         0\n", 31, 4, 15),
        (3, b"DONE         1         5         0\n\n", 23, 5, 1),
    ];
    for (at, other, number, line, column) in cases {
        let expected = Report {
            number,
            line,
            column,
        };
        assert_eq!(rt; report(rt.alloc(), at, other)?, expected);
    }
    Ok(())
}
