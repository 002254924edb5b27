// Rows of the output.
// Kept: the output's words with a row's number: C lends the words, and what follows goes on from that row.
ghost use Rattle.std.specs.Prelude.{◌≡◌, [], ◌∷◌, ◌+◌, ◌*◌, ◌≤◌, length};
ghost use Rattle.sheet_rows.specs.Print.{row};
ghost use Rattle.writer_lists.specs.Writing.{RowsFit, Wrote};

use sheet_rows::row::Row;

// Kept: a place for each column, as the definition's `row` has them: proofs say the row by this function's clause, where
// `Row { .., ..BLANK }` would be told anew at each call.
pub fn line(kind: u32, a: u32, b: u32, c: u32, d: u32, e: u32, f: u32, g: u32) -> Row
    ensures { result ≡ row kind a b c d e f g }
{
    Row {
        kind,
        a,
        b,
        c,
        d,
        e,
        f,
        g,
    }
}

pub fn put(out: &mut [u32], at: usize, r: Row)
    requires { 8 * at + 8 ≤ length out.old }
    ensures { Wrote (r ∷ []) out.old out.new (at + 1) at }
{
    out[8 * at..8 * at + 8].copy_from_slice(&[r.kind, r.a, r.b, r.c, r.d, r.e, r.f, r.g]);
}

// The row before row `end`.
pub fn back(out: &mut [u32], end: usize, r: Row) -> usize
    requires { RowsFit (r ∷ []) out.old end }
    ensures { Wrote (r ∷ []) out.old out.new end result }
{
    put(out, end - 1, r);
    end - 1
}
