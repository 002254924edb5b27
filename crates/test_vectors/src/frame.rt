// What cases are made of: headers and rows as lines, and the lines of the answers.
// Kept: a place and not the rest of the input: the line of a malformed case tells it.
ghost use Rattle.std.specs.Prelude.{◌≡◌, min};
ghost use Rattle.text_lines.specs.Write.{line as line_bytes};
ghost use Rattle.test_vectors.specs.Frame.{lines_at, rows_read, case_numbers};

use text_lines::{LINE, WORDS};

// The tags: what a case is, and 9, which is none.
// Kept: numbers with names and no enum. A tag is read from a line and written in one, so an enum would be turned into a number
// again at each answer; the same of what a lookup asks for.
pub mod tag {
    pub const CHECK: u32 = 1;

    pub const READ: u32 = 2;

    pub const WRITE: u32 = 3;

    pub const LOOKUP: u32 = 4;

    pub const MALFORMED: u32 = 9;
}

// A number for an answer; none of the cases has a longer one.
pub fn word(n: usize) -> u32
    ensures { result ≡ min n 4294967295 }
{
    u32::try_from(n).unwrap_or(u32::MAX)
}

// Lines at a place, into the lent words: the place after them, unless they are malformed.
pub fn lines(input: &[u8], at: usize, count: usize, words: &mut [u32]) -> Option<usize>
    ensures { lines_at input.now at count words.old ≡ (result, words.new) }
{
    if input.len() < at {
        return None;
    }
    if (input.len() - at) / LINE < count {
        return None;
    }
    let end = at + LINE * count;
    text_lines::read_lines(&input[at..end], words).ok()?;
    Some(end)
}

// Rows in the lent words: the first are kept from the cases before, the others stand as lines at a place. The place after
// them, unless they are malformed.
pub fn rows(input: &[u8], at: usize, kept: u32, count: usize, words: &mut [u32]) -> Option<usize>
    ensures { rows_read input.now at kept count words.old ≡ (result, words.new) }
{
    let n = kept as usize;
    let from = WORDS * n;
    if count < n {
        return None;
    }
    if words.len() < from {
        return None;
    }
    lines(input, at, count - n, &mut words[from..])
}

// The line of a case: its tag and four numbers.
pub fn line(tag: u32, a: u32, b: u32, c: u32, d: u32) -> [u8; 89]
    ensures { result ≡ line_bytes (case_numbers tag a b c d) }
{
    let words = [tag, a, b, c, d, 0, 0, 0];
    text_lines::line_of(&words)
}
