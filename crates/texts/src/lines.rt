// The lines of a text, handed out one by one as parts of it, and numbered from 1.
ghost use Rattle.std.specs.Prelude.{◌≡◌, length, is_some, is_ok, if◌then◌else◌};
ghost use Rattle.std.specs.Iterator.{at_most};
ghost use Rattle.std.specs.Option.{option_map};
ghost use Rattle.std.specs.Result.{result_map_both as each_mapped};
ghost use Rattle.texts.specs.Lines.{line_of, after_line, next_number, line_text, in_line, first_line, due_line, end_check};

use crate::fault::{Place, TextFault};

// The byte that ends a line.
const END_OF_LINE: u8 = 10;

// A line: its bytes without the byte that ends it, and whether there is one.
// A flag beside the bytes, since an unended line has bytes too.
#[derive(Clone, Copy)]
pub struct Line<'a> {
    pub number: u32,
    pub bytes: &'a [u8],
    pub ended: bool,
}

// The lines that are left of a text, and the number of the first of them.
#[derive(Clone, Copy)]
pub struct Lines<'a> {
    rest: &'a [u8],
    number: u32,
}

impl Line<'_> {
    // The place in this column.
    pub fn place(&self, column: u32) -> Place
        ensures { result ≡ in_line (line_text self.now) column }
    {
        Place {
            line: self.number,
            column,
        }
    }
}

impl<'a> Lines<'a> {
    pub fn new(text: &'a [u8]) -> Lines<'a>
        ensures { (result.rest.now ≡ text.now) × (result.number ≡ 1) }
    {
        Lines {
            rest: text,
            number: 1,
        }
    }

    // The text of these lines.
    pub fn rest(&self) -> &'a [u8]
        ensures { result.now ≡ self.now.rest.now }
    {
        self.rest
    }

    // The next line, where the text may not end before it.
    pub fn due(&mut self) -> Result<Line<'a>, TextFault>
        ensures line { each_mapped line_text (λ e. e) result ≡ due_line self.old.number self.old.rest.now }
        ensures rest { self.new.rest.now ≡ after_line self.old.rest.now }
        ensures number { self.new.number ≡ (if is_ok result then next_number self.old.number else self.old.number) }
    {
        let missing = TextFault::Extent(self.place());
        self.next().ok_or(missing)
    }

    // Refuses a text that goes on.
    pub fn end(&self) -> Result<(), TextFault>
        ensures { result ≡ end_check self.now.number self.now.rest.now }
    {
        if self.rest.is_empty() {
            Ok(())
        } else {
            Err(TextFault::Extent(self.place()))
        }
    }

    // The place where the next line begins.
    fn place(&self) -> Place
        ensures { result ≡ record { line = self.now.number; column = 1 } }
    {
        Place {
            line: self.number,
            column: 1,
        }
    }
}

impl<'a> Iterator for Lines<'a> {
    type Item = Line<'a>;

    ghost next_gives = { λ before line after. (option_map line_text line ≡ first_line before.number before.rest.now)
        × (after.rest.now ≡ after_line before.rest.now)
        × (after.number ≡ (if is_some line then next_number before.number else before.number)) };

    ghost remaining = { λ lines. at_most (length lines.rest.now) };

    // The next line, or `None` if no byte is left.
    #[tactic(auto, using(crate::proofs::Cuts::line_within))]
    fn next(&mut self) -> Option<Line<'a>> {
        if self.rest.is_empty() {
            return None;
        }
        let (bytes, behind) = self.rest.split_at(line_length(self.rest));
        let line = Line {
            number: self.number,
            bytes,
            ended: !behind.is_empty(),
        };
        self.rest = behind.get(1..).unwrap_or(behind);
        self.number = self.number.saturating_add(1);
        Some(line)
    }
}

// How many bytes the first line has.
fn line_length(text: &[u8]) -> usize
    ensures { result ≡ length (line_of text.now) }
{
    text.iter()
        .position(|byte| *byte == END_OF_LINE)
        .unwrap_or(text.len())
}
