// A field: ten columns with a decimal number, right-justified after blanks.
ghost use Rattle.std.specs.Prelude.{◌≡◌, ◌≤◌, length, drop};
ghost use Rattle.texts.specs.Lines.{line_text, in_line};
ghost use Rattle.texts.specs.Numerals.{behind_blanks, digits_from, numeral as numeral_of, number_of, Reads, field_at, field_number};

use crate::fault::{Place, TextFault};
use crate::lines::Line;

// How many columns a field has.
pub const COLUMNS: usize = 10;

// What stands before the number.
const BLANK: u8 = b' ';

// A field of a line: a part of the line, with the place where it begins.
#[derive(Clone, Copy)]
pub struct Field<'a> {
    pub place: Place,
    pub columns: &'a [u8],
}

impl<'a> Line<'a> {
    // The field that begins in this column. It is shorter than a field where the line ends within it.
    pub fn field(&self, column: u32) -> Field<'a>
        ensures place { result.place ≡ in_line (line_text self.now) column }
        ensures columns { result.columns.now ≡ field_at (line_text self.now) column }
    {
        let length = self.bytes.len();
        let from = length.min((column as usize).saturating_sub(1));
        let to = length.min(from + COLUMNS);
        Field {
            place: self.place(column),
            columns: &self.bytes[from..to],
        }
    }

    // The number in the field that begins in this column.
    pub fn number(&self, column: u32) -> Result<u32, TextFault>
        ensures { result ≡ field_number (line_text self.now) column }
    {
        let field = self.field(column);
        read(field.columns).ok_or(TextFault::Field(field.place))
    }
}

// The number in a field, or `None` if the columns are no field.
#[tactic(auto, unfolding(crate::specs::Numerals::number_of))]
pub fn read(columns: &[u8]) -> Option<u32>
    ensures value { result ≡ number_of columns.now }
    ensures law { Reads columns.now result }
{
    if columns.len() != COLUMNS {
        return None;
    }
    let number = numeral(&columns[blanks(columns)..])?;
    u32::try_from(number).ok()
}

// How many blanks come first.
fn blanks(columns: &[u8]) -> usize
    ensures within { result ≤ length columns.now }
    ensures behind { drop result columns.now ≡ behind_blanks columns.now }
{
    columns
        .iter()
        .position(|byte| *byte != BLANK)
        .unwrap_or(columns.len())
}

// The number that stands here, with no leading zero but 0 itself.
fn numeral(digits: &[u8]) -> Option<u64>
    requires { length digits.now ≤ 10 }
    ensures { result ≡ numeral_of digits.now }
{
    match digits {
        [] | [b'0', _, ..] => None,
        _ => value(digits),
    }
}

// The number that these digits are, or `None` where a byte is no digit.
fn value(digits: &[u8]) -> Option<u64>
    requires { length digits.now ≤ 10 }
    ensures { result ≡ digits_from 0 digits.now }
{
    let mut value = 0;
    for digit in digits {
        value = value * 10 + u64::from((*digit as char).to_digit(10)?);
    }
    Some(value)
}
