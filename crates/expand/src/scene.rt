// A scene, read and expanded with the limits of the program: 400 nodes, depth 64, 400 charges.
ghost use Rattle.expand_text.specs.Answer.{Few, Expands, ReadRefused, ReadExpanded};

use expand_text::answer::SceneError;
use expander_run::Expanded;
use text_lines::ReadError;

// The expansion of some rows, with no library.
fn expand_rows<'a>(root: &'a [u32], out: &mut [u32]) -> Result<Expanded, SceneError>
    ensures expands { Expands root.now out.old result out.new }
    ensures few { Few result }
{
    let library = [0u32; 0];
    let mut ledger = [0u32; 1200];
    let mut scopes = [0u32; 2000];
    let mut work = [0u32; 10560];
    let expanded = expander_call::expand(
        root,
        &library,
        400,
        64,
        400,
        out,
        &mut ledger,
        &mut scopes,
        &mut work,
    )?;
    Ok(expanded)
}

// The expansion of a text of at most 500 rows; the refusals of Read lines are the program's own.
pub fn expand_text(text: &[u8], out: &mut [u32]) -> Result<Expanded, SceneError>
    ensures read_refused { ReadRefused text.now result }
    ensures read_expanded { ReadExpanded text.now out.old result out.new }
    ensures few { Few result }
{
    let mut words = [0u32; 4000];
    match text_lines::read_lines(text, &mut words) {
        Ok(n) => expand_rows(&words[..8 * n], out),
        Err(error) => match error {
            ReadError::WrongLength => Err(SceneError::WrongLength),
            ReadError::BadLine { line } => Err(SceneError::BadLine { line: line as u32 }),
        },
    }
}
