// Writing lines of words and fields into a buffer that the caller lends, by a rule of the project; so buffer and place go along.
ghost use Rattle.std.specs.Prelude.{◌≡◌, ◌+◌, ◌*◌, ◌≤◌, length, is_some, if◌then◌else◌, nat_le};
ghost use Rattle.texts.specs.Fields.{field_text, written_line};
ghost use Rattle.filing.specs.Written.{fits, overwritten, line_answer};

use itoa::write_digits;
use texts::field::COLUMNS;

// A number as its ten columns: its digits behind blanks.
#[tactic(auto, using(crate::proofs::Columns::digits_fit, crate::proofs::Columns::digits_as_field))]
pub fn field(n: u32) -> [u8; 10]
    ensures { result ≡ field_text n }
{
    let mut columns = [b' '; COLUMNS];
    write_digits(u64::from(n), &mut columns, COLUMNS);
    columns
}

// Writes a line from `at` on, and gives the place behind it; writes nothing where the line does not fit.
#[tactic(auto, using(texts::proofs::Fielded::length_written_line))]
pub fn line(buffer: &mut [u8], at: usize, word: &[u8], fields: &[u32]) -> Option<usize>
    ensures place { result ≡ line_answer buffer.old at (written_line word.now fields.now) }
    ensures bytes { buffer.new ≡ (if is_some result then overwritten buffer.old at (written_line word.now fields.now) else buffer.old) }
{
    if !line_fits(buffer, at, word, fields) {
        return None;
    }
    Some(put_line(buffer, at, word, fields))
}

// Whether a line fits the buffer from `at` on; it divides, so that no number of fields overflows.
fn line_fits(buffer: &[u8], at: usize, word: &[u8], fields: &[u32]) -> bool
    ensures { result ≡ nat_le (at + length word.now + 10 * length fields.now + 1) (length buffer.now) }
{
    let room = buffer.len().saturating_sub(at).saturating_sub(word.len());
    room > 0 && fields.len() <= (room - 1) / COLUMNS
}

// Whether so many bytes fit the buffer from `at` on.
pub(crate) fn has_room(buffer: &[u8], at: usize, bytes: usize) -> bool
    ensures { result ≡ fits buffer.now at bytes }
{
    buffer.get(at..).is_some_and(|rest| bytes <= rest.len())
}

// Writes a line from `at` on, and gives the place behind it.
pub(crate) fn put_line(buffer: &mut [u8], at: usize, word: &[u8], fields: &[u32]) -> usize
    requires { at + length word.now + 10 * length fields.now + 1 ≤ length buffer.old }
    ensures place { result ≡ at + length word.now + 10 * length fields.now + 1 }
    ensures bytes { buffer.new ≡ overwritten buffer.old at (written_line word.now fields.now) }
{
    let mut end = put(buffer, at, word);
    for n in fields {
        end = put(buffer, end, &field(*n));
    }
    put(buffer, end, b"\n")
}

// Writes bytes from `at` on, and gives the place behind them.
#[tactic(auto, unfolding(crate::specs::Written::overwritten))]
fn put(buffer: &mut [u8], at: usize, bytes: &[u8]) -> usize
    requires { at + length bytes.now ≤ length buffer.old }
    ensures place { result ≡ at + length bytes.now }
    ensures bytes { buffer.new ≡ overwritten buffer.old at bytes.now }
{
    let end = at + bytes.len();
    buffer[at..end].copy_from_slice(bytes);
    end
}
