// What a case is made of: two lines of numbers, then the rows of its sheets as lines.
// Kept: a count of lines beside the lent words; the words behind those that are read stay, for the cases to come.
ghost use Rattle.std.specs.Prelude.{◌≡◌};
ghost use Rattle.test_cases.specs.Frame.{call_read, or_stay, Text, Lines, SheetRead};
ghost use Rattle.test_cases.specs.declared.frame.FrameError.TheVariants.{Lines as LinesRefused};

use std::io;
use text_lines::{LINE, ReadError, WORDS};

// Why a case is malformed.
#[derive(Clone, Copy, Debug, PartialEq, Eq)]
pub enum FrameError {
    // The reader has fewer lines.
    Ended,
    // More lines, or rows, than there is room for, or fewer than are kept.
    WrongLength,
    // Read lines refuses them.
    Lines(ReadError),
}

impl From<ReadError> for FrameError {
    ghost from_gives = { λ error frame. frame ≡ LinesRefused error };

    fn from(error: ReadError) -> FrameError {
        FrameError::Lines(error)
    }
}

// What Expand is called with: the limits, the words of both sheets and of what is lent, and the rows of each sheet that are
// kept from the cases before.
#[derive(Clone, Copy, Debug, PartialEq, Eq)]
pub struct Call {
    pub max_nodes: u32,
    pub max_depth: u32,
    pub max_rows: u32,
    pub root: u32,
    pub library: u32,
    pub root_kept: u32,
    pub library_kept: u32,
    pub out: u32,
    pub ledger: u32,
    pub scopes: u32,
    pub work: u32,
}

pub fn read_head(head: &[u32; 16]) -> Call
    ensures { result ≡ call_read head.now }
{
    Call {
        max_nodes: head[0],
        max_depth: head[1],
        max_rows: head[2],
        root: head[3],
        library: head[4],
        root_kept: head[5],
        library_kept: head[6],
        out: head[8],
        ledger: head[9],
        scopes: head[10],
        work: head[11],
    }
}

// Lines of a reader that fill the text, into the lent words.
fn read<R: io::Read>(reader: &mut R, text: &mut [u8], words: &mut [u32]) -> Result<(), FrameError>
    ensures { or_stay result (Text text.new) words.old words.new }
{
    if reader.read_exact(text).is_err() {
        return Err(FrameError::Ended);
    }
    text_lines::read_lines(text, words)?;
    Ok(())
}

// The next lines of a reader, into the lent words.
pub fn lines<R: io::Read>(reader: &mut R, count: usize, words: &mut [u32]) -> Result<(), FrameError>
    ensures { or_stay result (Lines count) words.old words.new }
{
    let mut text = [0u8; 11125];
    if text.len() / LINE < count {
        return Err(FrameError::WrongLength);
    }
    let end = LINE * count;
    read(reader, &mut text[..end], words)
}

// A sheet of so many words: its first rows are kept from the cases before, the others are the next lines. The last one is
// filled up where the words end within a row.
pub fn sheet<R: io::Read>(
    reader: &mut R,
    kept: u32,
    length: u32,
    words: &mut [u32],
) -> Result<(), FrameError>
    ensures { or_stay result (SheetRead kept length) words.old words.new }
{
    let from = kept as usize;
    let rows = (length as usize + 7) / 8;
    if rows < from {
        return Err(FrameError::WrongLength);
    }
    if words.len() / WORDS < from {
        return Err(FrameError::WrongLength);
    }
    lines(reader, rows - from, &mut words[WORDS * from..])
}
