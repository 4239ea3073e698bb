// The site reader: a text that describes a floor, its rock, a start and a goal.
ghost use Rattle.std.specs.Prelude.{◌≡◌, ◌+◌, ◌*◌, ◌<◌, ◌≤◌, length, IfOk, OnOk};
ghost use Rattle.std.specs.Result.{result_map_both};
ghost use Rattle.texts.specs.Lines.{line_text, after_line, next_number};
ghost use Rattle.sites.specs.Site.{site_heading, row_check, marks_check, word_alone, rows_check, after_lines, cells_of, ends_check, site_value, site_under, site_of, Accepted};
ghost use Rattle.sites.specs.Format.{plan_of, Bounded, SiteLaw};
ghost use Rattle.texts.specs.Words.{word_bytes};

use crate::fault::SiteFault;
use std::alloc::{AllocError, Global};
use texts::heading::{GOAL, Heading, START, WIDTH, in_column};
use texts::lines::{Line, Lines};

// A site as its text has it: the rows of the sheet are a part of the text, with their line ends.
#[derive(Clone, Copy)]
pub struct Site<'a> {
    pub heading: Heading,
    pub sheet: &'a [u8],
}

impl Site<'_> {
    // The sheet bytes by cell number: the rows without their line ends.
    pub fn cells(&self, heap: Global) -> Result<Vec<u8>, AllocError>
        ensures { IfOk result (λ v. v.items ≡ cells_of self.now.heading.width self.now.heading.height self.now.sheet.now) }
    {
        let width = self.heading.width as usize;
        let rows = self.sheet.chunks(width + 1);
        let mut cells = Vec::new(heap);
        for row in rows.take(self.heading.height as usize) {
            cells.extend_from_slice(&row[..row.len().min(width)])?;
        }
        Ok(cells)
    }
}

// The most bytes of a site text.
const MOST_BYTES: usize = 4096;

// The sheet byte of a rock cell.
const ROCK: u8 = b'#';

// The most cells of a site.
const MOST_CELLS: u32 = 512;

// Reads a site text.
#[tactic(auto, unfolding(crate::specs::Site::site_of))]
pub fn read_site(text: &[u8]) -> Result<Site<'_>, SiteFault>
    ensures value { result_map_both site_value (λ e. e) result ≡ site_of text.now }
    ensures accepted { IfOk result (λ s. Accepted s.heading s.sheet.now) }
    ensures bounded { IfOk result (λ s. Bounded (plan_of (site_value s))) }
    ensures law { SiteLaw text.now (result_map_both (λ s. plan_of (site_value s)) (λ e. e) result) }
{
    if text.len() > MOST_BYTES {
        return Err(SiteFault::TooLong);
    }
    let mut lines = Lines::new(text);
    let floor = Floor::read(&lines.due()?)?;
    floor.read_sheet(&mut lines)
}

// A floor as an accepted first line has it, with sides of at most 64 cells.
#[derive(Clone, Copy)]
struct Floor {
    heading: Heading,
    ghost sized: { (heading.width ≤ 64) × (heading.height ≤ 64) },
}

impl Floor {
    // The first line, with a floor that is not too large.
    #[tactic(auto, unfolding(crate::specs::Site::site_heading))]
    fn read(line: &Line<'_>) -> Result<Floor, SiteFault>
        ensures { result_map_both (λ f. f.heading) (λ e. e) result ≡ site_heading (line_text line.now) }
    {
        let heading = Heading::read(line, "SITE")?;
        heading.check()?;
        if heading.width * heading.height > MOST_CELLS {
            return Err(SiteFault::TooLarge(in_column(WIDTH)));
        }
        Ok(Floor { heading })
    }

    // The lines below the first: `PLAN`, the sheet, `END` and nothing more.
    #[tactic(auto, unfolding(crate::specs::Site::site_under))]
    fn read_sheet<'a>(&self, lines: &mut Lines<'a>) -> Result<Site<'a>, SiteFault>
        requires { lines.old.number ≡ 2 }
        ensures { result_map_both site_value (λ e. e) result ≡ site_under self.now.heading lines.old.rest.now }
    {
        check_word_alone(lines, "PLAN")?;
        let rows = lines.rest();
        self.check_rows(lines)?;
        check_word_alone(lines, "END")?;
        lines.end()?;
        let heading = self.heading;
        let sheet = &rows[0..(heading.height * (heading.width + 1)) as usize];
        self.check_ends(sheet)?;
        Ok(Site { heading, sheet })
    }

    // The next lines are the rows of the sheet.
    fn check_rows(&self, lines: &mut Lines<'_>) -> Result<(), SiteFault>
        requires { lines.old.number ≡ 3 }
        ensures checked { result ≡ rows_check self.now.heading.height self.now.heading.width 3 lines.old.rest.now }
        ensures rest { OnOk result (lines.new.rest.now ≡ after_lines self.now.heading.height lines.old.rest.now) }
        ensures number { OnOk result (lines.new.number ≡ self.now.heading.height + 3) }
    {
        for _row in 0..self.heading.height {
            check_row(&lines.due()?, self.heading.width as u16)?;
        }
        Ok(())
    }

    // Start and goal are cells of the floor, and the start is not on rock.
    #[tactic(auto, using(crate::proofs::Sheets::start_byte), unfolding(crate::specs::Site::ends_check))]
    fn check_ends(&self, sheet: &[u8]) -> Result<(), SiteFault>
        requires { length sheet.now ≡ self.now.heading.height * (self.now.heading.width + 1) }
        ensures { result ≡ ends_check self.now.heading sheet.now }
    {
        let heading = self.heading;
        let cells = heading.width * heading.height;
        if heading.start >= cells {
            return Err(SiteFault::StartOffFloor(in_column(START)));
        }
        let row = heading.start / heading.width;
        let column = heading.start % heading.width;
        if sheet[(row * (heading.width + 1) + column) as usize] == ROCK {
            return Err(SiteFault::StartOnRock(in_column(START)));
        }
        if heading.goal >= cells {
            return Err(SiteFault::GoalOffFloor(in_column(GOAL)));
        }
        Ok(())
    }
}

// The next line has this word alone.
#[tactic(auto, unfolding(crate::specs::Site::word_alone))]
fn check_word_alone(lines: &mut Lines<'_>, word: &str) -> Result<(), SiteFault>
    ensures checked { result ≡ word_alone lines.old.number (word_bytes word.now) lines.old.rest.now }
    ensures rest { lines.new.rest.now ≡ after_line lines.old.rest.now }
    ensures number { OnOk result (lines.new.number ≡ next_number lines.old.number) }
{
    lines.due()?.check_word(word, 0)?;
    Ok(())
}

// A line of the sheet: its length, and then its bytes.
#[tactic(auto, unfolding(crate::specs::Site::row_check))]
fn check_row(line: &Line<'_>, width: u16) -> Result<(), SiteFault>
    ensures { result ≡ row_check width (line_text line.now) }
{
    line.check_length(width)?;
    check_marks(line)
}

// Refuses the first byte that is neither passable nor rock.
fn check_marks(line: &Line<'_>) -> Result<(), SiteFault>
    requires { length line.now.bytes.now < 65536 }
    ensures { result ≡ marks_check (line_text line.now) 1 line.now.bytes.now }
{
    let foreign = line
        .bytes
        .iter()
        .position(|byte| !matches!(*byte as char, '.' | '#'));
    match foreign {
        Some(i) => Err(SiteFault::Foreign(line.place(i as u32 + 1))),
        None => Ok(()),
    }
}

#[cfg(test)]
mod tests {
    use super::*;
    use std::test::Fail;
    use texts::fault::Report;

    const FIRST: &[u8] = b"SITE         3         2         0         5         4         1\n";

    const REST: &[u8] = b"PLAN\n..#\n#..\nEND\n";

    // The report on a text of two parts, with zeros where it is accepted.
    fn report(heap: Global, first: &[u8], rest: &[u8]) -> Result<Report, AllocError> {
        let mut text = first.to_vec(heap)?;
        text.extend_from_slice(rest)?;
        Ok(match read_site(text.as_slice()) {
            Ok(_) => Report {
                number: 0,
                line: 0,
                column: 0,
            },
            Err(fault) => Report::from(fault),
        })
    }

    #[test]
    fn reads_a_site(rt: HostRuntime) -> Result<(), Fail> {
        let mut text = FIRST.to_vec(rt.alloc())?;
        text.extend_from_slice(REST)?;
        let Ok(site) = read_site(text.as_slice()) else {
            return Err(Fail::new("refused"));
        };
        assert_eq!(rt; site.heading.goal, 5);
        let cells = site.cells(rt.alloc())?;
        assert!(rt; cells.as_slice() == b"..##..".as_slice());
        Ok(())
    }

    #[test]
    fn refuses_a_first_line(rt: HostRuntime) -> Result<(), Fail> {
        let firsts: [(&[u8], u32, u32); 13] = [
            (b"S", 20, 2),
            (b"XITE", 21, 1),
            (
                b"SITE         3         2         x         5         4         1",
                20,
                65,
            ),
            (
                b"SITE         3         2         0         5         4         1\r\n",
                20,
                65,
            ),
            (
                b"SITE         3        02         0         5         4         1\n",
                22,
                15,
            ),
            (
                b"SITE         3         2         04294967296         4         1\n",
                22,
                35,
            ),
            (
                b"SITE        65         2         0         5         6         1\n",
                24,
                45,
            ),
            (
                b"SITE        65         2         0         5         4         3\n",
                24,
                55,
            ),
            (
                b"SITE         0        65         0         5         4         1\n",
                1,
                5,
            ),
            (
                b"SITE        27        19         0         5         4         1\n",
                25,
                5,
            ),
            (
                b"SITE         3         2         6         5         4         1\n",
                6,
                25,
            ),
            (
                b"SITE         3         2         2         6         4         1\n",
                7,
                25,
            ),
            (
                b"SITE         3         2         0         6         4         1\n",
                8,
                35,
            ),
        ];
        for (first, number, column) in firsts {
            let expected = Report {
                number,
                line: 1,
                column,
            };
            assert_eq!(rt;
                report(rt.alloc(), first, if number < 20 { REST } else { b"" })?,
                expected
            );
        }
        Ok(())
    }

    #[test]
    fn refuses_lines_below(rt: HostRuntime) -> Result<(), Fail> {
        let rests: [(&[u8], u32, u32, u32); 9] = [
            (b"", 23, 2, 1),
            (b"PLANE\n", 20, 2, 5),
            (b"PLAN\n.x#\n#.\n", 3, 3, 2),
            (b"PLAN\n..#\n#.\n", 20, 4, 3),
            (b"PLAN\n..#\nEND\n", 3, 4, 1),
            (b"PLAN\n..#\n#..\n", 23, 5, 1),
            (b"PLAN\n..#\n#..\n...\nEND\n", 21, 5, 1),
            (b"PLAN\n..#\n#..\nEND", 20, 5, 4),
            (b"PLAN\n..#\n#..\nEND\n\n", 23, 6, 1),
        ];
        for (rest, number, line, column) in rests {
            let expected = Report {
                number,
                line,
                column,
            };
            assert_eq!(rt; report(rt.alloc(), FIRST, rest)?, expected);
        }
        let expected = Report {
            number: 26,
            line: 0,
            column: 0,
        };
        assert_eq!(rt; report(rt.alloc(), FIRST, &[b' '; 4032])?, expected);
        Ok(())
    }
}
