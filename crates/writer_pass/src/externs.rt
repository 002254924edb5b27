// The externs of the journal, read from the sheets that declare them.
// Kept: the output's words with the row that is reached, as in `writer_lists`.
ghost use Rattle.std.specs.Prelude.{◌≡◌, ◌+◌, ◌*◌, ◌≤◌, length, drop};
ghost use Rattle.sheet_rows.specs.Rows.{rows};
ghost use Rattle.ast.specs.Lists.{flat};
ghost use Rattle.sheet_rows.specs.Print.{extern_proto_rows};
ghost use Rattle.journal_records.specs.Records.{tag_extern};
ghost use Rattle.journal_reading.specs.Reading.{externs_of, below};
ghost use Rattle.writer_lists.specs.Writing.{RowsFit, Wrote};
ghost use Rattle.writer_pass.specs.Externs.{declared_row, declared_rows, extern_rows_of};

use journal_records;
use journal_records::{TAG_EXTERN, words};
use sheet_lookup::rows as sheets;
use sheet_rows::part::Part;
use sheet_rows::row::Row;
use sheet_rows::{codes, row};
use sheet_walks::walk;
use writer_lists;
use writer_lists::rows;

// The row of an element of a part.
// Kept: the part picks the row: with a function for each part it would be handed to `copy_part` beside the part that it goes with.
fn declared(of: Part, used: bool, r: Row) -> Row
    ensures { result ≡ declared_row of used r }
{
    if of.kind() == codes::kind::URL {
        return rows::line(codes::kind::URL, r.a, r.b, u32::from(used), 0, 0, 0, 0);
    }
    rows::line(codes::kind::INTERFACE, r.a, r.b, r.c, r.d, 0, 0, 0)
}

// The elements of a part from row `from` on, each a row from row `start` on; the row after. `taken` is the number, from 1, of the
// url that was taken, 0 where none was.
// Kept: `taken` is a number and no Option, as the word of the record that it is read from and the definition's mark.
// Kept: the rows are counted by hand, since the row that is reached is the answer, too.
fn copy_part(
    sheet: &[u32],
    of: Part,
    from: usize,
    taken: usize,
    out: &mut [u32],
    start: usize,
) -> usize
    requires { RowsFit (declared_rows of taken (drop from (rows sheet.now))) out.old (start + length (declared_rows of taken (drop from (rows sheet.now)))) }
    ensures { Wrote (declared_rows of taken (drop from (rows sheet.now))) out.old out.new result start }
{
    let mut p = start;
    for q in walk::elements(sheet, of, from) {
        let n = p - start + 1;
        rows::put(out, p, declared(of, n == taken, row::row_at(sheet, q)));
        p += 1;
    }
    p
}

// The extern that stands at a row.
fn declaration(sheet: &[u32], at: usize, taken: usize, out: &mut [u32], p: usize) -> usize
    requires rows_fit { RowsFit (extern_rows_of taken (drop at (rows sheet.now))) out.old (p + length (extern_rows_of taken (drop at (rows sheet.now)))) }
    requires at_bound { at ≤ 4294967295 }
    ensures { Wrote (extern_rows_of taken (drop at (rows sheet.now))) out.old out.new result p }
{
    rows::put(
        out,
        p,
        rows::line(
            codes::kind::EXTERN_PROTO,
            row::row_at(sheet, at).a,
            0,
            0,
            0,
            0,
            0,
            0,
        ),
    );
    let a = copy_part(sheet, Part::Interfaces, at + 1, 0, out, p + 1);
    copy_part(sheet, Part::Urls, at + 1, taken, out, a)
}

// The rows of the externs, of which there are `some`: where there is none, no record is looked at.
pub fn externs<'a>(
    root: &'a [u32],
    library: &'a [u32],
    work: &[u32],
    c: usize,
    some: usize,
    out: &mut [u32],
    start: usize,
) -> usize
    requires c_in_bounds { c * 12 ≤ length work.now }
    requires some_value { some ≡ below work.now tag_extern c }
    requires rows_fit { RowsFit (flat extern_proto_rows (externs_of root.now library.now work.now c)) out.old (start + length (flat extern_proto_rows (externs_of root.now library.now work.now c))) }
    ensures { Wrote (flat extern_proto_rows (externs_of root.now library.now work.now c)) out.old out.new result start }
{
    if some == 0 {
        return start;
    }
    let mut p = start;
    for r in 0..c {
        if journal_records::word(work, r, words::TAG) == TAG_EXTERN {
            let sheet = sheets::select(
                root,
                library,
                journal_records::word(work, r, words::extern_proto::DOCUMENT),
            );
            let at = journal_records::word(work, r, words::extern_proto::ROW) as usize;
            let taken = journal_records::word(work, r, words::extern_proto::MARK) as usize;
            p = declaration(sheet, at, taken, out, p);
        }
    }
    p
}
