#![tactic(auto)]
// Rows that a walk may pass over, since they neither are what it looks for nor end it, and tables by which it passes a run of
// them at once. A table has a word for 32 rows: first for the root's rows, then for the library's.

// What a walk looks for: the end of a prototype, or the body order of a node; of a body the Node, ExternProto and Route
// statements; of a node the ExternProto and Route statements; of a prototype the interfaces with a value; the interfaces.
#[derive(Clone, Copy, Debug, PartialEq, Eq)]
pub enum Aim {
    End,
    Body,
    Kept,
    Default,
    Interface,
}
