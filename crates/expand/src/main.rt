#![tactic(auto)]
// The program of document 01: expands the scene on standard input, in Lines form, with an empty library. It writes a line
// with the refusal, its places and the counts, then the rows of the expanded scene. What it cannot write it tells on
// standard error, since it has no exit status of its own.
use expand_text::{answer, input};

mod scene;

ghost use Rattle.expand_text.specs.Answer.{Few};

use expand_text::answer::SceneError;
use expander_run::Expanded;
use std::io::Read;

// A reader's scene, expanded into out. Input that is longer than the lines, or cannot be read, has no length that Read
// lines takes.
fn respond<R: Read>(
    reader: &mut R,
    text: &mut [u8],
    out: &mut [u32],
) -> Result<Expanded, SceneError>
    ensures { Few result }
{
    match input::read(reader, text) {
        Ok(n) => scene::expand_text(&text[..n], out),
        Err(_) => Err(SceneError::WrongLength),
    }
}

// Rows, as lines on standard output; there is room for as many as out holds. Whether all of them were written.
fn print(rt: &impl Print, rows: &[u32]) -> bool {
    let mut text = [0u8; 35600];
    if let Ok(n) = text_lines::write_lines(rows, &mut text) {
        return rt.write_all(&text[..n]).is_ok();
    }
    false
}

// The answer, and then so many rows of out. Whether all of it was written.
fn print_all(rt: &impl Print, line: &[u32], rows: &[u32]) -> bool {
    if !print(rt, line) {
        return false;
    }
    print(rt, rows)
}

fn main(rt: HostRuntime) {
    let mut text = [0u8; 44500];
    let mut out = [0u32; 3200];
    let answered = respond(&mut rt.stdin(), &mut text, &mut out);
    let line = answer::line(answered);
    let rows = answer::rows(answered);
    if !print_all(&rt, &line, &out[..8 * rows]) {
        let _ = rt.eprintln("expand: the answer could not be written whole");
    }
}
