#![tactic(auto)]
// Runs the cases of standard input on the check of sheets, the lines and the lookups, and writes a line for each:
// its tag and the answer. vectors/README.md says what a case is made of.
mod cases;
mod frame;

ghost use Rattle.std.specs.Prelude.{◌≤◌, length};

use frame::tag;
use sheet_rows::row;
use std::io::Read;

// A case's answer, on a line of its own: the place after the case, unless it is malformed.
fn case<'a>(
    rt: &impl Print,
    input: &[u8],
    at: usize,
    root: &'a mut [u32],
    library: &'a mut [u32],
) -> Option<usize> {
    let mut header = [0u32; 8];
    let data = frame::lines(input, at, 1, &mut header)?;
    let h = row::row_at(&header, 0);
    match h.kind {
        tag::CHECK => cases::check(rt, input, data, h, root),
        tag::READ => cases::read(rt, input, data, h),
        tag::WRITE => cases::write(rt, input, data, h, root),
        tag::LOOKUP => cases::lookup(rt, input, data, h, root, library),
        _ => None,
    }
}

// The place of what is malformed.
fn print_malformed(rt: &impl Print, at: u32) {
    let text = frame::line(tag::MALFORMED, at, 0, 0, 0);
    let _ = rt.write_all(&text);
}

fn run<'a>(rt: &impl Print, input: &[u8], root: &'a mut [u32], library: &'a mut [u32]) {
    let mut at = 0;
    // Kept: a case tells where the next begins, so the places are no range's, and a case that is malformed ends them.
    while at < input.len() {
        match case(rt, input, at, root, library) {
            Some(next) if at < next => at = next,
            _ => return print_malformed(rt, frame::word(at)),
        }
    }
}

// What a reader has, up to as many bytes as are lent: how many it gave. A read that fails counts as the end.
// Kept: the loop reads into lent bytes; the library's reading to the end fills memory of its own, and there is no heap.
fn read_full<R: Read>(reader: &mut R, bytes: &mut [u8]) -> usize
    ensures { result ≤ length bytes.old }
{
    let mut n = 0;
    while n < bytes.len() {
        match reader.read(&mut bytes[n..]) {
            Ok(0) => return n,
            Ok(more) => n += more,
            Err(_) => return n,
        }
    }
    n
}

fn main(rt: HostRuntime) {
    let mut input = [0u8; 400000];
    let mut root = [0u32; 1024];
    let mut library = [0u32; 1024];
    let n = read_full(&mut rt.stdin(), &mut input);
    if n == 0 {
        print_malformed(&rt, 0);
    }
    run(&rt, &input[..n], &mut root, &mut library);
}
