// The cases, by their tag. Each prints its answer and hands back the place after its data, unless it is malformed.
// Kept: the input, a place in it and a header as parameters; each function is called once, with what `case` has just read.
ghost use Rattle.std.specs.Prelude.{◌≡◌};
ghost use Rattle.test_vectors.specs.Cases.{check_at, read_at, write_at, lookup_at};

use super::frame;
use super::frame::tag;
use ast::{ExternProtoId, NodeId, ProtoId};
use sheet_check::BadRow;
use sheet_check::grammar::Form;
use sheet_lookup::document;
use sheet_rows::row::Row;
use sheet_walks::walk::Found;

// What a lookup may ask for.
mod wanted {
    pub const NODE: u32 = 0;

    pub const PROTO: u32 = 1;

    pub const EXTERN_PROTO: u32 = 2;

    pub const PROTO_ROWS: u32 = 3;
}

// Writes the line of a case.
fn print(rt: &impl Print, tag: u32, a: u32, b: u32, c: u32, d: u32) {
    let text = frame::line(tag, a, b, c, d);
    let _ = rt.write_all(&text);
}

// Check: a form, b number of words, c number of rows kept; the other rows follow.
pub fn check(rt: &impl Print, input: &[u8], at: usize, h: Row, words: &mut [u32]) -> Option<usize>
    ensures { check_at input.now at h words.old ≡ (result, words.new) }
{
    let n = h.b as usize;
    let Ok(form) = Form::try_from(h.a) else {
        return None;
    };
    if 2 < h.a {
        return None;
    }
    let next = frame::rows(input, at, h.c, n.div_ceil(8), words)?;
    if words.len() < n {
        return None;
    }
    print_check(rt, sheet_check::check(&words[..n], form));
    Some(next)
}

fn print_check(rt: &impl Print, checked: Result<(), BadRow>) {
    match checked {
        Ok(()) => print(rt, tag::CHECK, 0, 0, 0, 0),
        Err(BadRow(place)) => print(rt, tag::CHECK, 3, frame::word(place), 0, 0),
    }
}

// Read lines: a number of bytes, b number of words lent; the bytes follow.
pub fn read(rt: &impl Print, input: &[u8], at: usize, h: Row) -> Option<usize>
    ensures { result ≡ read_at input.now at h }
{
    let n = h.a as usize;
    let lent = h.b as usize;
    let mut words = [3123456789u32; 1024];
    if input.len() < at {
        return None;
    }
    if input.len() - at < n {
        return None;
    }
    if words.len() < lent {
        return None;
    }
    let end = at + n;
    print_read(rt, &input[at..end], &mut words[..lent]);
    Some(end)
}

fn print_read(rt: &impl Print, text: &[u8], words: &mut [u32]) {
    let read = text_lines::read_lines(text, words);
    let sum = test_checksum::of_words(0, words);
    match read {
        Ok(rows) => print(rt, tag::READ, 0, 0, frame::word(rows), sum),
        Err(error) => print(
            rt,
            tag::READ,
            u32::from(error),
            frame::word(error.place()),
            0,
            sum,
        ),
    }
}

// Write lines: a number of words, b number of bytes lent, c number of rows kept; the other rows follow.
pub fn write(rt: &impl Print, input: &[u8], at: usize, h: Row, words: &mut [u32]) -> Option<usize>
    ensures { write_at input.now at h words.old ≡ (result, words.new) }
{
    let n = h.a as usize;
    let lent = h.b as usize;
    let mut bytes = [165u8; 4096];
    let next = frame::rows(input, at, h.c, n.div_ceil(8), words)?;
    if words.len() < n {
        return None;
    }
    if bytes.len() < lent {
        return None;
    }
    print_write(rt, &words[..n], &mut bytes[..lent]);
    Some(next)
}

fn print_write(rt: &impl Print, words: &[u32], bytes: &mut [u8]) {
    let written = text_lines::write_lines(words, bytes);
    let sum = test_checksum::of_bytes(0, bytes);
    match written {
        Ok(n) => print(rt, tag::WRITE, 0, frame::word(n), sum, 0),
        Err(error) => print(rt, tag::WRITE, u32::from(error), 0, sum, 0),
    }
}

// Lookup: a rows of the root, b rows of the library, c document, d what is looked up, e its id, f and g number of rows kept of each; the other rows follow.
pub fn lookup<'a>(
    rt: &impl Print,
    input: &[u8],
    at: usize,
    h: Row,
    root: &'a mut [u32],
    library: &'a mut [u32],
) -> Option<usize>
    ensures { lookup_at input.now at h root.old library.old ≡ (result, root.new, library.new) }
{
    let n = h.a as usize;
    let m = h.b as usize;
    if wanted::PROTO_ROWS < h.d {
        return None;
    }
    let after_root = frame::rows(input, at, h.f, n, root)?;
    let next = frame::rows(input, after_root, h.g, m, library)?;
    if root.len() / 8 < n {
        return None;
    }
    if library.len() / 8 < m {
        return None;
    }
    print_lookup(rt, &root[..8 * n], &library[..8 * m], h);
    Some(next)
}

fn print_lookup<'a>(rt: &impl Print, root: &'a [u32], library: &'a [u32], h: Row) {
    let doc = h.c;
    let which = h.d;
    let id = h.e;
    match which {
        wanted::NODE => print_found(rt, document::node(root, library, doc, NodeId(id))),
        wanted::PROTO => print_found(rt, document::proto(root, library, doc, ProtoId(id))),
        wanted::EXTERN_PROTO => print_found(
            rt,
            document::extern_proto(root, library, doc, ExternProtoId(id)),
        ),
        _ => print_part(rt, sheet_part::proto_rows(root, library, doc, ProtoId(id))),
    }
}

fn print_found(rt: &impl Print, found: Found) {
    match found {
        Found::At(row) => print(rt, tag::LOOKUP, 1, frame::word(row), 0, 0),
        Found::Nothing => print(rt, tag::LOOKUP, 0, 0, 0, 0),
    }
}

fn print_part(rt: &impl Print, part: &[u32]) {
    print(
        rt,
        tag::LOOKUP,
        frame::word(part.len()),
        test_checksum::of_words(0, part),
        0,
        0,
    );
}
