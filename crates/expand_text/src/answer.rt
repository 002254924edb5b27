// What the program writes of an answer: the first line, and how many rows of out come after it.
ghost use Rattle.std.specs.Prelude.{◌≡◌};
ghost use Rattle.expander_run.specs.Calls.{told};
ghost use Rattle.expand_text.specs.Answer.{refused_numbers, scene_numbers, line_of, first_line, answer_rows, Few};
ghost use Rattle.expand_text.specs.declared.answer.SceneError.TheVariants.{Expand};

use expander_run::{Expanded, Numbers, Refusal};
use text_lines::ReadError;

// Why there is no expansion: what was read is no lines of rows, or Expand says no.
// Kept: the two errors of Read lines are variants here, with the line as a word. In a ReadError it is a usize, and that it fits
// into a word is known only where the text is read, not at the writing.
#[derive(Clone, Copy, Debug, PartialEq, Eq)]
pub enum SceneError {
    WrongLength,
    BadLine { line: u32 },
    Expand(Refusal),
}

impl From<Refusal> for SceneError {
    ghost from_gives = { λ e s. s ≡ Expand e };

    fn from(e: Refusal) -> SceneError {
        SceneError::Expand(e)
    }
}

// A refusal of the program's own, with its place.
pub fn refused(number: u32, place: u32) -> Numbers
    ensures { told result ≡ refused_numbers number place }
{
    Numbers {
        refusal: number,
        first_place: place,
        second_place: 0,
        nodes: 0,
        scopes: 0,
        charges: 0,
        rows: 0,
    }
}

// An answer in numbers.
fn numbers(answer: Result<Expanded, SceneError>) -> Numbers
    ensures { told result ≡ scene_numbers answer }
{
    match answer {
        Ok(expanded) => Numbers::of(Ok(expanded)),
        Err(SceneError::Expand(refusal)) => Numbers::of(Err(refusal)),
        Err(SceneError::WrongLength) => refused(u32::from(ReadError::WrongLength), 0),
        Err(SceneError::BadLine { line }) => {
            let error = ReadError::BadLine {
                line: line as usize,
            };
            refused(u32::from(error), line)
        }
    }
}

// The first line of an answer in numbers: refusal or 0, two place numbers, 0, nodes, scopes, charges, 0.
pub fn line_of(n: Numbers) -> [u32; 8]
    ensures { result ≡ line_of (told n) }
{
    [
        n.refusal,
        n.first_place,
        n.second_place,
        0,
        n.nodes,
        n.scopes,
        n.charges,
        0,
    ]
}

// The first line.
pub fn line(answer: Result<Expanded, SceneError>) -> [u32; 8]
    ensures { result ≡ first_line answer }
{
    line_of(numbers(answer))
}

// How many rows of out come with an answer in numbers.
pub fn rows_of(n: Numbers) -> usize
    ensures { result ≡ (told n).rows }
{
    n.rows as usize
}

// How many rows of out are written: all that the answer has.
pub fn rows(answer: Result<Expanded, SceneError>) -> usize
    requires { Few answer }
    ensures { result ≡ answer_rows answer }
{
    rows_of(numbers(answer))
}
