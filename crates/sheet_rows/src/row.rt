// A row is eight words: column 1 is its kind, columns 2 to 8 are a to g.
ghost use Rattle.std.specs.Prelude.{◌≡◌, get_or};
ghost use Rattle.sheet_rows.specs.Rows.{rows, blank};

// What a column has for no name, no id, no value.
pub const NONE: u32 = 4294967295;

#[derive(Clone, Copy, Debug, PartialEq, Eq)]
pub struct Row {
    pub kind: u32,
    pub a: u32,
    pub b: u32,
    pub c: u32,
    pub d: u32,
    pub e: u32,
    pub f: u32,
    pub g: u32,
}

const BLANK: Row = Row {
    kind: 0,
    a: 0,
    b: 0,
    c: 0,
    d: 0,
    e: 0,
    f: 0,
    g: 0,
};

// The row at a place; past the end a row of kind 0, which no sheet has.
// Kept: no Option, since a row of kind 0 ends each walk over rows as the end of the sheet does.
pub fn row_at(sheet: &[u32], at: usize) -> Row
    ensures { result ≡ get_or (rows sheet.now) at blank }
{
    if at < sheet.len() / 8 {
        let i = 8 * at;
        Row {
            kind: sheet[i],
            a: sheet[i + 1],
            b: sheet[i + 2],
            c: sheet[i + 3],
            d: sheet[i + 4],
            e: sheet[i + 5],
            f: sheet[i + 6],
            g: sheet[i + 7],
        }
    } else {
        BLANK
    }
}
