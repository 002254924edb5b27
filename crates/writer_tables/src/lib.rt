#![tactic(auto)]
// An entry of the scopes or of the ledger.
// Kept: the journal's words with a record's place, as in `writer_lists`, and a table's words with the entry's place: C lends the
// table, and the scopes are read where a node's entry is written.
ghost use Rattle.std.specs.Prelude.{◌≡◌, ◌+◌, ◌*◌, ◌≤◌, length};
ghost use Rattle.expansion_definition.specs.Scopes.{scope_entry};
ghost use Rattle.journal_records.specs.Records.{tag_scope, cell};
ghost use Rattle.journal_reading.specs.Reading.{scope_rec};
ghost use Rattle.writer_lists.specs.Writing.{Pasted};
ghost use Rattle.writer_tables.specs.Tables.{entry_words, EntryRoom};

use journal_records;
use journal_records::{codes, words};
use writer_lists;

// An entry's words, from word `p` of a table on.
fn paste<const N: usize>(table: &mut [u32], p: usize, text: [u32; N])
    requires { p + N ≤ length table.old }
    ensures { Pasted text.entry table.old table.new p }
{
    table[p..p + N].copy_from_slice(&text);
}

// The scope of record `r`.
pub fn scope(work: &[u32], r: usize, scopes: &mut [u32], p: usize)
    requires r_in_bounds { (r * 12 + 12 ≤ length work.now) × (cell work.now r 0 ≡ tag_scope) }
    requires p_in_bounds { p + 5 ≤ length scopes.old }
    ensures { Pasted (scope_entry (scope_rec work.now r)) scopes.old scopes.new p }
{
    let kind = journal_records::word(work, r, words::scope::KIND);
    if kind == codes::scope::ROOT {
        paste(scopes, p, [codes::scope::ROOT, 0, 0, 0, 0]);
        return;
    }
    let document = journal_records::word(work, r, words::scope::DOCUMENT);
    let proto = journal_records::word(work, r, words::scope::PROTO);
    let opener = journal_records::word(work, r, words::scope::OPENER);
    if kind == codes::scope::BODY {
        paste(scopes, p, [codes::scope::BODY, document, proto, 0, opener]);
        return;
    }
    let index = journal_records::word(work, r, words::scope::INDEX);
    paste(
        scopes,
        p,
        [codes::scope::DEFAULT, document, proto, index, opener],
    );
}

// The entry of node `r`, with the document of its scope.
pub fn entry(work: &[u32], c: usize, r: usize, scopes: &[u32], ledger: &mut [u32], p: usize)
    requires { EntryRoom work.now c r scopes.now ledger.old p }
    ensures { Pasted (entry_words work.now c r) ledger.old ledger.new p }
{
    let scope = journal_records::word(work, r, words::node::SCOPE);
    let at = scope as usize * 5 + 1;
    let source = journal_records::word(work, r, words::node::SOURCE);
    paste(ledger, p, [scope, scopes[at], source]);
}
