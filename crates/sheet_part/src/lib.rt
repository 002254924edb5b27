#![tactic(auto)]
// A part of one of two sheets, and the rows of a prototype as such a part.
// Kept: both sheets and a document's number as parameters: the callers lend the sheets as two, and select by many numbers.
ghost use Rattle.std.specs.Prelude.{◌≡◌, ◌<◌, length};
ghost use Rattle.ast.specs.Lookups.{proto_at};
ghost use Rattle.sheet_rows.specs.Rows.{rows};
ghost use Rattle.sheet_lookup.specs.Lookup.{sheet_of, root_and_files};
ghost use Rattle.sheet_part.specs.Part.{part_of, ProtoEnd, ProtoPart, HandedBack};

use ast::ProtoId;
use sheet_lookup::{document, rows};
use sheet_rows::part::Part;
use sheet_rows::row;
use sheet_walks::walk::Found;

// The rows from one to another of the sheet that a document number selects: 0 the root, any other the library.
pub fn rows_of<'a>(
    root: &'a [u32],
    library: &'a [u32],
    doc: u32,
    from: usize,
    to: usize,
) -> &'a [u32]
    ensures { result.now ≡ part_of (sheet_of root.now library.now doc) from to }
{
    rows_between(rows::select(root, library, doc), from, to)
}

fn rows_between(sheet: &[u32], from: usize, to: usize) -> &[u32]
    ensures { result.now ≡ part_of sheet.now from to }
{
    if from <= to && to <= sheet.len() / 8 {
        &sheet[8 * from..8 * to]
    } else {
        &[]
    }
}

// The first row from a row on that stands in no prototype.
fn proto_end(sheet: &[u32], from: usize) -> usize
    ensures { ProtoEnd (rows sheet.now) from result }
{
    let count = sheet.len() / 8;
    for at in from..count {
        let kind = row::row_at(sheet, at).kind;
        if kind != Part::Statements.kind() && !Part::Statements.passes(kind) {
            return at;
        }
    }
    count.max(from)
}

// The rows of the prototype that stands at a row.
pub fn proto_at<'a>(root: &'a [u32], library: &'a [u32], doc: u32, from: usize) -> &'a [u32]
    requires { from < length (rows (sheet_of root.now library.now doc)) }
    ensures { ProtoPart (sheet_of root.now library.now doc) from result.now }
{
    let to = proto_end(rows::select(root, library, doc), from + 1);
    rows_of(root, library, doc, from, to)
}

// A prototype's rows, handed back as a part of the root sheet or of the library; none where there is no such prototype.
pub fn proto_rows<'a>(root: &'a [u32], library: &'a [u32], doc: u32, id: ProtoId) -> &'a [u32]
    ensures { HandedBack (proto_at (root_and_files root.now library.now) doc id.0) (sheet_of root.now library.now doc) result.now }
{
    let Found::At(from) = document::proto(root, library, doc, id) else {
        return rows_of(root, library, doc, 0, 0);
    };
    proto_at(root, library, doc, from)
}
