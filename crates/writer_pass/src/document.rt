// The output sheet, the ledger and the scopes.
// Kept: the journal's words with how many records there are, and the words that the writing fills: C lends each by itself.
// Kept: `some`, of which only 0 is told apart, is the journal's own count; a bool would be made of it for this call.
ghost use Rattle.std.specs.Prelude.{length};
ghost use Rattle.writer_lists.specs.Writing.{RowsFit};
ghost use Rattle.writer_tables.specs.Tables.{TablesRoom};
ghost use Rattle.writer_pass.specs.Document.{journal_rows, Printable, Written};

use super::{externs, pass};
use sheet_rows::{codes, row};
use writer_lists;
use writer_lists::{Kind, rows};

// Answers the number of rows; `some` is the number of externs.
pub fn write<'a>(
    root: &'a [u32],
    library: &'a [u32],
    work: &[u32],
    c: usize,
    some: usize,
    tops: u32,
    out: &mut [u32],
    ledger: &mut [u32],
    scopes: &mut [u32],
) -> usize
    requires printable { Printable work.now c some tops }
    requires rows_fit { RowsFit (journal_rows root.now library.now work.now c tops) out.old (length (journal_rows root.now library.now work.now c tops)) }
    requires tables_room { TablesRoom work.now c ledger.old scopes.old }
    ensures { Written (journal_rows root.now library.now work.now c tops) work.now c out.old out.new ledger.old ledger.new scopes.old scopes.new result }
{
    rows::put(
        out,
        0,
        rows::line(
            codes::kind::DOCUMENT,
            row::row_at(root, 0).a,
            0,
            0,
            0,
            0,
            0,
            0,
        ),
    );
    let a = pass::pass(work, c, out, 1, ledger, scopes);
    let b = externs::externs(root, library, work, c, some, out, a);
    rows::put(out, b, rows::line(codes::kind::TOP, 0, 0, 0, 0, 0, 0, 0));
    let last = tops as usize;
    let end = b + 1 + writer_lists::count_list(work, Kind::Statements, last);
    writer_lists::list(work, Kind::Statements, last, out, end);
    end
}
