#![tactic(auto)]
// Runs the stored cases of Expand on standard input and writes a line for each: refusal, its places, nodes, scopes,
// charges, rows, and a sum over out, ledger and scopes as they stand after the call. vectors/README.md says what a case is
// made of.
// Kept: the sheets and the lent slices as parameters, as Expand has them; the slices are local arrays (no heap).
use std::io::Read;
use test_cases::frame::{Call, FrameError};
use test_cases::{answer, fill, frame};

// A call on slices that hold patterns, and its line.
fn run<'a>(
    rt: &impl Print,
    root: &'a [u32],
    library: &'a [u32],
    call: Call,
    out: &mut [u32],
    ledger: &mut [u32],
    scopes: &mut [u32],
    work: &mut [u32],
) {
    fill::fill(out, 0x5A000000, 1);
    fill::fill(ledger, 0x5B000000, 1);
    fill::fill(scopes, 0x5C000000, 1);
    fill::fill(work, 0, 0x9E3779B1);
    let outcome = expander_call::expand(
        root,
        library,
        call.max_nodes,
        call.max_depth,
        call.max_rows,
        out,
        ledger,
        scopes,
        work,
    );
    let sum = test_checksum::of_words(
        test_checksum::of_words(test_checksum::of_words(0, out), ledger),
        scopes,
    );
    let text = answer::line(outcome, sum);
    let _ = rt.write_all(&text);
}

// A call with lent slices of its lengths, unless the program's own are shorter.
fn lend<'a>(
    rt: &impl Print,
    root: &'a [u32],
    library: &'a [u32],
    call: Call,
) -> Result<(), FrameError> {
    let mut out = [0u32; 3300];
    let mut ledger = [0u32; 1300];
    let mut scopes = [0u32; 2100];
    let mut work = [0u32; 40000];
    run(
        rt,
        root,
        library,
        call,
        front(&mut out, call.out)?,
        front(&mut ledger, call.ledger)?,
        front(&mut scopes, call.scopes)?,
        front(&mut work, call.work)?,
    );
    Ok(())
}

// The first words of some, unless there are fewer.
fn front(words: &mut [u32], count: u32) -> Result<&mut [u32], FrameError> {
    words
        .get_mut(..count as usize)
        .ok_or(FrameError::WrongLength)
}

// The next case, and its line, unless it is malformed.
fn case<'a, R: Read>(
    rt: &impl Print,
    reader: &mut R,
    root: &'a mut [u32],
    library: &'a mut [u32],
) -> Result<(), FrameError> {
    let mut head = [0u32; 16];
    frame::lines(reader, 2, &mut head)?;
    let call = frame::read_head(&head);
    frame::sheet(reader, call.root_kept, call.root, root)?;
    frame::sheet(reader, call.library_kept, call.library, library)?;
    let root = root
        .get(..call.root as usize)
        .ok_or(FrameError::WrongLength)?;
    let library = library
        .get(..call.library as usize)
        .ok_or(FrameError::WrongLength)?;
    lend(rt, root, library, call)
}

fn print_malformed(rt: &impl Print, number: u32) {
    let text = answer::malformed(number);
    let _ = rt.write_all(&text);
}

// So many cases, up to one that is malformed.
fn cases<'a, R: Read>(
    rt: &impl Print,
    reader: &mut R,
    count: u32,
    root: &'a mut [u32],
    library: &'a mut [u32],
) {
    for i in 0..count {
        if case(rt, reader, root, library).is_err() {
            return print_malformed(rt, i);
        }
    }
}

// The first line says how many cases there are.
fn main(rt: HostRuntime) {
    let mut stdin = rt.stdin();
    let mut root = [0u32; 1000];
    let mut library = [0u32; 1000];
    let mut first = [0u32; 8];
    if frame::lines(&mut stdin, 1, &mut first).is_err() {
        print_malformed(&rt, 0);
    }
    cases(&rt, &mut stdin, first[0], &mut root, &mut library);
}
