#![tactic(auto)]
// Pages (document 02, wish 13): every page of a document's ledger.
// Kept: sheet, ledger and text with a row and a line's place as parameters. All are lent (no heap), each function has one
// caller, and a struct of them would be made for that one call.
ghost use Rattle.std.specs.Prelude.{◌≡◌, ◌+◌, ◌*◌, length};
ghost use Rattle.std.proofs.lemmas.List.Edits.{sets};
ghost use Rattle.pages_definition.specs.Pages.{each, document_nodes, page, answer_of, paged};
ghost use Rattle.pages_definition.specs.Steps.{LineReady, LinePut, PageReady, PagePut, PagesReady};
ghost use Rattle.pages_definition.specs.Promises.{Promises};

use pages_definition::PagesError;
use sheet_rows::part::Part;
use sheet_rows::row;
use sheet_walks::walk;
use sheet_walks::walk::Found;

// A line of a page, with its end.
const LINE_BYTES: usize = 73;

// The nodes of a page, one to a line under its heading.
const NODES: usize = 59;

const PAGE_BYTES: usize = LINE_BYTES * (NODES + 1);

// The `i`-th line for a node, by a walk from row `q` on: the node's, or a blank one. The row to go on from.
fn put_line(sheet: &[u32], q: usize, i: usize, ledger: &[u32], text: &mut [u8], at: usize) -> usize
    requires { LineReady sheet.now ledger.now q i at (length text.old) }
    ensures { LinePut sheet.now ledger.now i at text.old text.new result }
{
    match walk::seek(sheet, Part::Nodes, q) {
        Found::At(found) => {
            pages_text::put_node_line(sheet, found, i, ledger, text, at);
            found + 1
        }
        Found::Nothing => {
            pages_text::put_blank_line(text, at);
            sheet.len() / 8
        }
    }
}

// Page `p`, from 0, by a walk from row `q` on. The row to go on from.
fn put_page(sheet: &[u32], q: usize, p: usize, ledger: &[u32], text: &mut [u8]) -> usize
    requires { PageReady sheet.now ledger.now q p (length text.old) }
    ensures { PagePut sheet.now ledger.now p text.old text.new result }
{
    let base = PAGE_BYTES * p;
    pages_text::put_heading(text, base, (p + 1) as u32);
    let mut from = q;
    for k in 0..NODES {
        from = put_line(
            sheet,
            from,
            NODES * p + k,
            ledger,
            text,
            base + LINE_BYTES + LINE_BYTES * k,
        );
    }
    from
}

// The first `n` pages.
fn put_pages(sheet: &[u32], n: usize, ledger: &[u32], text: &mut [u8])
    requires { PagesReady sheet.now ledger.now n (length text.old) }
    ensures { text.new ≡ sets text.old 0 (each n (page (document_nodes sheet.now) ledger.now)) }
{
    let mut from = 1;
    for p in 0..n {
        from = put_page(sheet, from, p, ledger, text);
    }
}

// All pages, into the lent bytes; they stay on a refusal. Work is asked for and not used.
pub fn pages(
    document: &[u32],
    ledger: &[u32],
    text: &mut [u8],
    work: &mut [u32],
) -> Result<usize, PagesError>
    ensures text_after { (answer_of result, text.new) ≡ paged document.now ledger.now (length work.old) text.old }
    ensures promises { Promises document.now ledger.now (length work.old) text.old (answer_of result) text.new }
{
    if !sheet_check::is_expanded(document) {
        return Err(PagesError::MalformedDocument);
    }
    if work.len() / 16 < document.len() / 8 {
        return Err(PagesError::MalformedDocument);
    }
    let nodes = walk::count(document, Part::Nodes, 1);
    if 4294967295 < nodes {
        return Err(PagesError::MalformedDocument);
    }
    if ledger.len() != 3 * nodes {
        return Err(PagesError::MalformedDocument);
    }
    let count = nodes.div_ceil(NODES);
    if text.len() / PAGE_BYTES < count {
        return Err(PagesError::TooFewBytes);
    }
    put_pages(document, count, ledger, text);
    Ok(PAGE_BYTES * count)
}
