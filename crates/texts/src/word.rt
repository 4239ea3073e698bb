// The words that lines begin with, and the check of a line against its word and its length.
ghost use Rattle.std.specs.Prelude.{◌≡◌, ◌≤◌, length};
ghost use Rattle.texts.specs.Lines.{line_text};
ghost use Rattle.texts.specs.Words.{word_bytes, length_check, word_check};

use crate::fault::TextFault;
use crate::field::COLUMNS;
use crate::lines::Line;

// The bytes of a word; a text that is no word has none.
// Words are text literals and no enum, by a rule of the project.
pub fn bytes_of(word: &str) -> &'static [u8]
    ensures bytes { result.now ≡ word_bytes word.now }
    ensures short { length result.now ≤ 4 }
{
    match word {
        "SITE" => b"SITE",
        "PLAN" => b"PLAN",
        "END" => b"END",
        "PATH" => b"PATH",
        "DONE" => b"DONE",
        "SHUT" => b"SHUT",
        _ => b"",
    }
}

impl Line<'_> {
    // Refuses a line that has another length, or no end.
    pub fn check_length(&self, right: u16) -> Result<(), TextFault>
        ensures { result ≡ length_check (line_text self.now) right }
    {
        let length = self.bytes.len();
        if length == usize::from(right) && self.ended {
            return Ok(());
        }
        Err(TextFault::Length(self.place(length.min(usize::from(right)) as u32 + 1)))
    }

    // Refuses a line with fewer characters than the word, then another word, then a length that is not
    // that of the word and its fields.
    #[tactic(auto, unfolding(crate::specs::Words::word_check))]
    pub fn check_word(&self, word: &str, fields: u8) -> Result<(), TextFault>
        ensures { result ≡ word_check (line_text self.now) (word_bytes word.now) fields }
    {
        let word = bytes_of(word);
        if self.bytes.len() < word.len() {
            return Err(TextFault::Length(self.place(self.bytes.len() as u32 + 1)));
        }
        if !self.bytes.starts_with(word) {
            return Err(TextFault::Word(self.place(1)));
        }
        self.check_length(word.len() as u16 + COLUMNS as u16 * u16::from(fields))
    }
}
