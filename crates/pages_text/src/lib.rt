#![tactic(auto)]
// The lines of a page (document 02, wish 13): a heading, a node's line, a blank line.
// Kept: a place beside the whole text: what is promised of a page is said of the whole text, as edits at places.
ghost use Rattle.std.specs.Prelude.{◌≡◌, ◌++◌, ◌+◌, ◌*◌, ◌≤◌, length, drop};
ghost use Rattle.std.proofs.lemmas.List.Edits.{sets};
ghost use Rattle.sheet_rows.specs.Rows.{rows};
ghost use Rattle.sheet_rows.specs.Parse.{optional, node_of};
ghost use Rattle.text_decimal.specs.Decimal.{justified};
ghost use Rattle.pages_definition.specs.Pages.{line_end, name_text, blank_line, node_line};
ghost use Rattle.pages_definition.specs.Steps.{NodeReady};

use sheet_rows::row;

// A number's place in a line.
const FIELD: usize = 12;

// The places of a line, all but its end.
const FIELDS: usize = 6 * FIELD;

// The first line of a page.
pub fn put_heading(text: &mut [u8], at: usize, number: u32)
    requires { at + 73 ≤ length text.old }
    ensures { text.new ≡ sets text.old at (justified 72 number ++ line_end) }
{
    let end = at + FIELDS;
    text_decimal::put_number(&mut text[at..end], number);
    text[end] = b'\n';
}

pub fn put_blank_line(text: &mut [u8], at: usize)
    requires { at + 73 ≤ length text.old }
    ensures { text.new ≡ sets text.old at blank_line }
{
    let end = at + FIELDS;
    text_decimal::put_spaces(&mut text[at..end]);
    text[end] = b'\n';
}

// A name or none, in 12 bytes.
fn put_name(text: &mut [u8], at: usize, name: u32)
    requires { at + 12 ≤ length text.old }
    ensures { text.new ≡ sets text.old at (name_text (optional name)) }
{
    if name == row::NONE {
        text_decimal::put_spaces(&mut text[at..at + FIELD]);
    } else {
        text_decimal::put_number(&mut text[at..at + FIELD], name);
    }
}

// Three numbers, in 12 bytes each.
fn put_three(text: &mut [u8], at: usize, a: u32, b: u32, c: u32)
    requires { at + 36 ≤ length text.old }
    ensures { text.new ≡ sets text.old at (justified 12 a ++ (justified 12 b ++ justified 12 c)) }
{
    text_decimal::put_number(&mut text[at..at + FIELD], a);
    text_decimal::put_number(&mut text[at + FIELD..at + 2 * FIELD], b);
    text_decimal::put_number(&mut text[at + 2 * FIELD..at + 3 * FIELD], c);
}

// The line of the `i`-th node, which stands at row `q`.
pub fn put_node_line(sheet: &[u32], q: usize, i: usize, ledger: &[u32], text: &mut [u8], at: usize)
    requires { NodeReady ledger.now i at (length text.old) }
    ensures { text.new ≡ sets text.old at (node_line i (drop (3 * i) ledger.now) (node_of (drop q (rows sheet.now)))) }
{
    let r = row::row_at(sheet, q);
    let e = 3 * i;
    let end = at + FIELDS;
    put_three(text, at, i as u32, ledger[e], ledger[e + 1]);
    text_decimal::put_number(&mut text[at + 3 * FIELD..at + 4 * FIELD], ledger[e + 2]);
    text_decimal::put_number(&mut text[at + 4 * FIELD..at + 5 * FIELD], r.a);
    put_name(text, at + 5 * FIELD, r.b);
    text[end] = b'\n';
}
