#![tactic(auto)]
// Read lines and Write lines as C calls them: the answer in lent words.
// Kept: the parameters are those of the C functions.
ghost use Rattle.std.specs.Prelude.{◌≡◌};
ghost use Rattle.text_export.specs.Exports.{read_c, write_c};

use text_lines::{LINE, ReadError, WORDS, WriteError};

// The lines that a u32 counts.
const MOST_LINES: usize = 4294967295;

// The rows whose bytes, 89 for each, a u32 counts.
const MOST_ROWS: usize = 48258059;

// Read lines. Answer: refusal, place, rows. More lines than a u32 counts are refused.
pub fn read_lines(lines: &[u8], words: &mut [u32], answer: &mut [u32]) -> u32
    ensures { record { result = result; lent = words.new; answer = answer.new } ≡ read_c lines.now words.old answer.old }
{
    let uncounted = u32::from(ReadError::WrongLength);
    if answer.len() < 3 {
        return uncounted;
    }
    if lines.len() / LINE > MOST_LINES {
        return words_answer::put_words(answer, &[uncounted, 0, 0]);
    }
    match text_lines::read_lines(lines, words) {
        Ok(rows) => words_answer::put_words(answer, &[0, 0, rows as u32]),
        Err(error) => words_answer::put_words(answer, &[u32::from(error), error.place() as u32, 0]),
    }
}

// Write lines. Answer: refusal, place, bytes. Rows of more bytes than a u32 counts are refused.
pub fn write_lines(words: &[u32], lines: &mut [u8], answer: &mut [u32]) -> u32
    ensures { record { result = result; lent = lines.new; answer = answer.new } ≡ write_c words.now lines.old answer.old }
{
    let uncounted = u32::from(WriteError::WrongLength);
    if answer.len() < 3 {
        return uncounted;
    }
    if words.len() / WORDS > MOST_ROWS {
        return words_answer::put_words(answer, &[uncounted, 0, 0]);
    }
    match text_lines::write_lines(words, lines) {
        Ok(bytes) => words_answer::put_words(answer, &[0, 0, bytes as u32]),
        Err(error) => words_answer::put_words(answer, &[u32::from(error), 0, 0]),
    }
}
