#![tactic(auto)]
// Rows of eight numbers as lines of text: the reader and the writer (document 01, Read lines, Write lines and Lines).
ghost use Rattle.std.specs.Prelude.{◌≡◌, ◌+◌, ◌*◌, ◌/◌, ◌≤◌, ◌<◌, length, MatchOption};
ghost use Rattle.std.proofs.lemmas.List.Edits.{sets};
ghost use Rattle.text_lines.specs.Read.{with_digit, next, column_read, number_in, good_line, numbers, good_lines, words_of, read_number, read_place, read_answer, read_lines};
ghost use Rattle.text_lines.specs.Write.{line, lines_of, write_number, write_answer, write_lines};

// The words of a row.
pub const WORDS: usize = 8;

// The bytes of a field, and of a line: eight fields and a line feed.
const FIELD: usize = 11;

pub const LINE: usize = 89;

// What the bytes of a field come to: spaces alone, a number, or neither.
// Kept: the three states of a parser have names; an Option in a Result would be read by matching twice.
#[derive(Clone, Copy, Debug, PartialEq, Eq)]
enum Field {
    Spaces,
    Number(u32),
    Bad,
}

impl Field {
    // What bytes come to, from left to right.
    fn of(bytes: &[u8]) -> Field
        ensures { result ≡ column_read bytes.now }
    {
        bytes.iter().fold(Field::Spaces, |field, b| field.next(*b))
    }

    // The field and one byte more.
    fn next(self, b: u8) -> Field
        ensures { result ≡ next self b }
    {
        match self {
            Field::Spaces => if b == b' ' {
                Field::Spaces
            } else {
                with_digit(0, b)
            },
            Field::Number(n) => if n == 0 { Field::Bad } else { with_digit(n, b) },
            Field::Bad => Field::Bad,
        }
    }

    // The number, if it is one.
    fn number(self) -> Option<u32>
        ensures { result ≡ number_in self }
    {
        match self {
            Field::Number(n) => Some(n),
            Field::Spaces | Field::Bad => None,
        }
    }
}

// Why lines are not read.
#[derive(Clone, Copy, Debug, PartialEq, Eq)]
pub enum ReadError {
    // No whole number of lines, or more than the lent words hold.
    WrongLength,
    // The first bad line, by its number from 0.
    BadLine { line: usize },
}

impl ReadError {
    // The place that an answer names beside the refusal.
    pub fn place(self) -> usize
        ensures { result ≡ read_place self }
    {
        match self {
            ReadError::WrongLength => 0,
            ReadError::BadLine { line } => line,
        }
    }
}

impl From<ReadError> for u32 {
    ghost from_gives = { λ error number. number ≡ read_number error };

    fn from(error: ReadError) -> u32 {
        match error {
            ReadError::WrongLength => 12,
            ReadError::BadLine { line: _ } => 13,
        }
    }
}

// Why rows are not written.
#[derive(Clone, Copy, Debug, PartialEq, Eq)]
pub enum WriteError {
    // No whole number of rows, or more than the lent bytes hold.
    WrongLength,
}

impl From<WriteError> for u32 {
    ghost from_gives = { λ error number. number ≡ write_number error };

    fn from(error: WriteError) -> u32 {
        match error {
            WriteError::WrongLength => 14,
        }
    }
}

// ---- reading

// A number and one digit more.
fn with_digit(n: u32, b: u8) -> Field
    ensures { result ≡ with_digit n b }
{
    if !b.is_ascii_digit() {
        return Field::Bad;
    }
    let m = 10 * u64::from(n) + u64::from(b - b'0');
    match u32::try_from(m) {
        Ok(m) => Field::Number(m),
        Err(_) => Field::Bad,
    }
}

// Whether a line is eight numbers and a line feed.
fn good_line(line: &[u8]) -> bool
    requires { length line.now ≡ 89 }
    ensures { result ≡ good_line line.now }
{
    line.chunks_exact(FIELD)
        .all(|bytes| Field::of(bytes).number().is_some())
        && line[LINE - 1] == b'\n'
}

// The first bad line, by its number from 0.
fn first_bad(lines: &[u8]) -> Option<usize>
    ensures { let n = length lines.now / 89 in MatchOption result (good_lines n lines.now ≡ n) (λ i. (good_lines n lines.now ≡ i) × (i < n)) }
{
    lines.chunks_exact(LINE).position(|line| !good_line(line))
}

// The eight numbers of a line, into a row.
fn take_row(line: &[u8], row: &mut [u32])
    requires long { length line.now ≡ 89 }
    requires eight { length row.old ≡ 8 }
    ensures { row.new ≡ numbers 8 line.now }
{
    for (i, word) in row.iter_mut().enumerate() {
        *word = Field::of(&line[FIELD * i..FIELD * (i + 1)])
            .number()
            .unwrap_or(0);
    }
}

// The rows of a text, into the lent words; they stay if a line is bad.
pub fn read_lines(lines: &[u8], words: &mut [u32]) -> Result<usize, ReadError>
    ensures { read_lines lines.now words.old ≡ (read_answer result, words.new) }
{
    let rows = lines.len() / LINE;
    if lines.len() % LINE != 0 || words.len() / WORDS < rows {
        return Err(ReadError::WrongLength);
    }
    if let Some(line) = first_bad(lines) {
        return Err(ReadError::BadLine { line });
    }
    for i in 0..rows {
        take_row(
            &lines[LINE * i..LINE * (i + 1)],
            &mut words[WORDS * i..WORDS * (i + 1)],
        );
    }
    Ok(rows)
}

// ---- writing

// A row, as its line.
fn put_row(row: &[u32], text: &mut [u8])
    requires eight { length row.now ≡ 8 }
    requires long { length text.old ≡ 89 }
    ensures { text.new ≡ line row.now }
{
    for (i, n) in row.iter().enumerate() {
        text_decimal::put_number(&mut text[FIELD * i..FIELD * (i + 1)], *n);
    }
    text[LINE - 1] = b'\n';
}

// Rows of words, as lines into the lent bytes.
pub fn write_lines(words: &[u32], lines: &mut [u8]) -> Result<usize, WriteError>
    ensures { write_lines words.now lines.old ≡ (write_answer result, lines.new) }
{
    let rows = words.len() / WORDS;
    if words.len() % WORDS != 0 || lines.len() / LINE < rows {
        return Err(WriteError::WrongLength);
    }
    for i in 0..rows {
        put_row(
            &words[WORDS * i..WORDS * (i + 1)],
            &mut lines[LINE * i..LINE * (i + 1)],
        );
    }
    Ok(LINE * rows)
}

// A row, as its line.
pub fn line_of(words: &[u32; 8]) -> [u8; 89]
    ensures { result ≡ line words.now }
{
    let mut text = [0u8; 89];
    put_row(words, &mut text);
    text
}
