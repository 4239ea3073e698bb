// What the program prints of a site text.
ghost use Rattle.std.specs.Prelude.{◌≤◌, length, IfOk};
ghost use Rattle.sites.specs.Site.{site_of};
ghost use Rattle.survey.specs.Printing.{Failed, Printed};

use crate::course::survey;
use crate::fault::Failure;
use filing::write;
use std::alloc::{AllocError, Global};
use texts::fault::Report;

// Writes the record of a site's drive, or the line of its fault, into the buffer: the number of bytes to print.
pub fn print(heap: Global, text: &[u8], buffer: &mut [u8]) -> Result<usize, AllocError>
    ensures printed { IfOk result (λ bytes. Printed (site_of text.now) buffer.old buffer.new bytes) }
    ensures within { IfOk result (λ bytes. bytes ≤ length buffer.old) }
{
    // A match, since the check did not find what a closure leaves in the buffer.
    match survey(heap, text, buffer) {
        Ok(bytes) => Ok(bytes),
        Err(fault) => Ok(fail(buffer, &Failure::try_from(fault)?)),
    }
}

// Writes the line of a failure, if it fits. No `Display`, since the buffer is lent, as a record's is.
fn fail(buffer: &mut [u8], failure: &Failure) -> usize
    ensures failed { Failed failure.now buffer.old buffer.new result }
    ensures within { result ≤ length buffer.old }
{
    let Report {
        number,
        line,
        column,
    } = failure.report;
    let fields = [failure.layer.number(), number, line, column];
    write::line(buffer, 0, b"FAIL", &fields).unwrap_or(0)
}

#[cfg(test)]
mod tests {
    use super::*;
    use std::process::Abort;
    use std::test::Fail;

    fn prints(rt: &(impl Abort + AllocGlobal), text: &[u8], expected: &[u8]) -> Result<(), Fail> {
        let mut buffer = vec![in rt.alloc(); 0u8; 200]?;
        let bytes = print(rt.alloc(), text, &mut buffer)?;
        assert!(rt; &buffer[0..bytes] == expected);
        Ok(())
    }

    #[test]
    fn two_by_one(rt: HostRuntime) -> Result<(), Fail> {
        let text = b"SITE         2         1         0         1         4         1
PLAN
..
END
";
        let record = b"PATH         2         1         0         1         4         1
         0         0         0
         1         1         5
DONE         1         5         0
";
        prints(&rt, text, record)
    }

    // A zero byte, bytes above 127, a number past 32 bits, a floor without columns, a last line without its end, and a text too long.
    #[test]
    fn bad_input(rt: HostRuntime) -> Result<(), Fail> {
        let bad: [(&[u8], &[u8]); 6] = [
            (b"\0", b"FAIL         1        20         1         2\n"),
            (
                b"\xff\xfe\x80\x81",
                b"FAIL         1        21         1         1\n",
            ),
            (
                b"SITE4294967296         5         0         0         4         1\n",
                b"FAIL         1        22         1         5\n",
            ),
            (
                b"SITE         0         5         0         0         4         1\n",
                b"FAIL         2         1         1         5\n",
            ),
            (
                b"SITE         2         1         0         1         4         1\nPLAN\n..\nEND",
                b"FAIL         1        20         4         4\n",
            ),
            (
                &[b' '; 4097],
                b"FAIL         2        26         0         0\n",
            ),
        ];
        for (text, expected) in bad {
            prints(&rt, text, expected)?;
        }
        Ok(())
    }

    // No text, a foreign sheet byte, rock on the carrier's own pointer, and a course too long for the buffer.
    #[test]
    fn one_line_of_failure(rt: HostRuntime) -> Result<(), Fail> {
        prints(&rt, b"", b"FAIL         1        23         1         1\n")?;
        let foreign = b"SITE         2         1         0         1         4         1
PLAN
.~
END
";
        prints(
            &rt,
            foreign,
            b"FAIL         2         3         3         2\n",
        )?;
        let cut = b"SITE         3         1         0         2         4         1
PLAN
.#.
END
";
        prints(&rt, cut, b"FAIL         3        11         0         0\n")?;
        let far = b"SITE         4         1         0         3         8         2
PLAN
....
END
";
        prints(&rt, far, b"FAIL         4        30         0         0\n")
    }
}
