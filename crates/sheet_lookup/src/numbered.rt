// Node, prototype and extern ids: three numberings kept apart, each of the elements of a part of a document.
ghost use Rattle.std.specs.Prelude.{◌≡◌, List, ℕ, map, drop};
ghost use Rattle.ast.specs.Ast.{Document, Node, ProtoDecl, ExternProtoDecl};
ghost use Rattle.sheet_rows.specs.declared.row.Row.{Row};
ghost use Rattle.sheet_rows.specs.declared.part.Part.{Part};
ghost use Rattle.sheet_rows.specs.declared.part.Part.TheVariants.{Nodes, Protos, Externs};
ghost use Rattle.sheet_rows.specs.Rows.{rest};
ghost use Rattle.sheet_rows.specs.Parse.{elements, node_of, proto_of, extern_proto_of};
ghost use Rattle.sheet_lookup.specs.Lookup.{document_at, nodes_at, protos_at, externs_at};

use ast::{ExternProtoId, NodeId, ProtoId};
use sheet_rows::part::Part;

pub trait Numbered: Copy {
    // What is read at an element's rows, and those of a document.
    ghost Element: { Type 0 };

    ghost read: { List Row → Element };

    ghost all: { Document → List Element };

    ghost PART: { Part };

    const PART: Part;

    ghost index: { Self → ℕ };

    // From 0.
    fn number(self) -> u32
        ensures { result ≡ index self };

    ghost by_rows: { (R : List Row) (p : ℕ) → all (document_at R p) ≡ map read (elements PART (rest (drop p R))) };
}

impl Numbered for NodeId {
    ghost Element = { Node };

    ghost read = { node_of };

    ghost all = { λ d. d.nodes };

    ghost PART = { Nodes };

    const PART: Part = Part::Nodes;

    ghost index = { λ id. id.0 };

    fn number(self) -> u32 {
        self.0
    }

    ghost by_rows = { nodes_at };
}

impl Numbered for ProtoId {
    ghost Element = { ProtoDecl };

    ghost read = { proto_of };

    ghost all = { λ d. d.protos };

    ghost PART = { Protos };

    const PART: Part = Part::Protos;

    ghost index = { λ id. id.0 };

    fn number(self) -> u32 {
        self.0
    }

    ghost by_rows = { protos_at };
}

impl Numbered for ExternProtoId {
    ghost Element = { ExternProtoDecl };

    ghost read = { extern_proto_of };

    ghost all = { λ d. d.extern_protos };

    ghost PART = { Externs };

    const PART: Part = Part::Externs;

    ghost index = { λ id. id.0 };

    fn number(self) -> u32 {
        self.0
    }

    ghost by_rows = { externs_at };
}
