// A reader, to its end.
ghost use Rattle.std.specs.Prelude.{◌≡◌, ◌≤◌, length};
ghost use Rattle.expand_text.specs.Input.{EndsWithin};
ghost use Rattle.expand_text.specs.declared.input.InputError.TheVariants.{Failed};

use std::io;
use std::io::Read;

// Why there is no text: more bytes than are lent, or an error.
#[derive(Clone, Copy, Debug, PartialEq, Eq)]
pub enum InputError {
    TooLong,
    Failed,
}

impl From<io::Error> for InputError {
    ghost from_gives = { λ e i. i ≡ Failed };

    fn from(_error: io::Error) -> InputError {
        InputError::Failed
    }
}

// All that a reader has, into the lent bytes: how many there are. A read that a signal interrupts counts as an error.
// Kept: the loop reads into lent bytes; the library's reading to the end fills memory of its own, and there is no heap.
pub fn read<R: Read>(reader: &mut R, bytes: &mut [u8]) -> Result<usize, InputError>
    ensures { EndsWithin result (length bytes.old) }
{
    let mut n = 0;
    while n < bytes.len() {
        let more = reader.read(&mut bytes[n..])?;
        if more == 0 {
            return Ok(n);
        }
        n += more;
    }
    // One byte more is asked for.
    let mut byte = [0u8; 1];
    if reader.read(&mut byte)? == 0 {
        Ok(n)
    } else {
        Err(InputError::TooLong)
    }
}
