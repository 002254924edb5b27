// The records, gone through once: each node gives its rows and its entry of the ledger, each scope its entry.
// Kept: words with the places that are reached in them, counted by hand: an iterator over the scopes' entries would hold them
// borrowed, and a node's entry reads them; the ledger's place is counted as theirs is.
ghost use Rattle.std.specs.Prelude.{◌+◌, length};
ghost use Rattle.ast.specs.Lists.{flat};
ghost use Rattle.sheet_rows.specs.Print.{node_rows};
ghost use Rattle.journal_reading.specs.Reading.{nodes_of};
ghost use Rattle.writer_lists.specs.Writing.{Pasted, RowsFit, Wrote};
ghost use Rattle.writer_nodes.specs.Instances.{Legible};
ghost use Rattle.writer_tables.specs.Tables.{scope_text, ledger_text, TablesRoom};

use journal_records;
use journal_records::{TAG_NODE, TAG_SCOPE, words};
use writer_nodes;
use writer_tables;

// The rows stand from row `start` on; answers the row after them. A scope is opened before the nodes in it: when a node
// is met, the document of its scope stands in `scopes`.
pub fn pass(
    work: &[u32],
    c: usize,
    out: &mut [u32],
    start: usize,
    ledger: &mut [u32],
    scopes: &mut [u32],
) -> usize
    requires legible { Legible work.now c }
    requires rows_fit { RowsFit (flat node_rows (nodes_of work.now c)) out.old (start + length (flat node_rows (nodes_of work.now c))) }
    requires tables_room { TablesRoom work.now c ledger.old scopes.old }
    ensures wrote { Wrote (flat node_rows (nodes_of work.now c)) out.old out.new result start }
    ensures pasted { Pasted (ledger_text work.now c) ledger.old ledger.new 0 }
    ensures pasted_2 { Pasted (scope_text work.now c) scopes.old scopes.new 0 }
{
    let mut p = start;
    let mut l = 0;
    let mut s = 0;
    for r in 0..c {
        let tag = journal_records::word(work, r, words::TAG);
        if tag == TAG_NODE {
            let end = p + writer_nodes::count_node(work, c, r);
            writer_nodes::node(work, c, r, out, end);
            p = end;
            writer_tables::entry(work, c, r, scopes, ledger, l);
            l += 3;
            continue;
        }
        if tag == TAG_SCOPE {
            writer_tables::scope(work, r, scopes, s);
            s += 5;
        }
    }
    p
}
