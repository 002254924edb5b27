// Lookups by id in document 0 or in the n-th file.
ghost use Rattle.sheet_rows.specs.Rows.{rows};
ghost use Rattle.sheet_rows.specs.Parse.{node_of, proto_of, extern_proto_of};
ghost use Rattle.sheet_lookup.specs.Lookup.{Begins, document_at, root_and_files, sheet_of, Looked, Located};
ghost use Rattle.std.proofs.Math.ListN.{get_elem?};
ghost use Rattle.ast.specs.Choice.{and_then};
ghost use Rattle.ast.specs.Lookups.{node_at, proto_at, extern_proto_at};

use super::numbered::Numbered;
use super::rows;
use ast::{ExternProtoId, NodeId, ProtoId};
use sheet_rows::part::Part;
use sheet_walks::walk;
use sheet_walks::walk::Found;

// The row where a document begins, in the sheet that its number selects.
pub fn document(library: &[u32], doc: u32) -> Found
    ensures { Begins library.now doc result }
{
    if doc == 0 {
        return Found::At(0);
    }
    let Found::At(q) = walk::nth(library, Part::Files, 0, doc - 1) else {
        return Found::Nothing;
    };
    Found::At(q + 1)
}

// The row of an id's element, of the document that begins at a row.
pub fn row_of<I: Numbered>(sheet: &[u32], document: usize, id: I) -> Found
    ensures { Looked I.read (I.all (document_at (rows sheet.now) document)) (rows sheet.now) (I.index id) result }
{
    walk::child(sheet, I::PART, document, id.number())
}

// The same, of a document by its number.
// Kept: the two sheets and the number side by side. A struct of the three would be made at each call, for `select` to take apart.
pub fn find<'a, I: Numbered>(root: &'a [u32], library: &'a [u32], doc: u32, id: I) -> Found
    ensures { Located I.read (and_then (get_elem? (root_and_files root.now library.now) doc) (λ d. get_elem? (I.all d) (I.index id))) (rows (sheet_of root.now library.now doc)) result }
{
    let Found::At(at) = document(library, doc) else {
        return Found::Nothing;
    };
    row_of(rows::select(root, library, doc), at, id)
}

// Kept: three names, a line each. Document 01 has Document::node, proto and extern_proto.
#[tactic(auto, unfolding(ast::specs::Lookups::node_at))]
pub fn node<'a>(root: &'a [u32], library: &'a [u32], doc: u32, id: NodeId) -> Found
    ensures { Located node_of (node_at (root_and_files root.now library.now) doc id.0) (rows (sheet_of root.now library.now doc)) result }
{
    find::<NodeId>(root, library, doc, id)
}

#[tactic(auto, unfolding(ast::specs::Lookups::proto_at))]
pub fn proto<'a>(root: &'a [u32], library: &'a [u32], doc: u32, id: ProtoId) -> Found
    ensures { Located proto_of (proto_at (root_and_files root.now library.now) doc id.0) (rows (sheet_of root.now library.now doc)) result }
{
    find::<ProtoId>(root, library, doc, id)
}

#[tactic(auto, unfolding(ast::specs::Lookups::extern_proto_at))]
pub fn extern_proto<'a>(root: &'a [u32], library: &'a [u32], doc: u32, id: ExternProtoId) -> Found
    ensures { Located extern_proto_of (extern_proto_at (root_and_files root.now library.now) doc id.0) (rows (sheet_of root.now library.now doc)) result }
{
    find::<ExternProtoId>(root, library, doc, id)
}
