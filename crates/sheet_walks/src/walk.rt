// Walks over a part of a sheet: its first element from a row on, its n-th, the n-th of what stands at a row.
// Kept: a row's place beside the sheet: callers keep many places of one sheet; a view would be made anew for each.
ghost use Rattle.std.specs.Prelude.{◌≡◌, length, drop};
ghost use Rattle.std.specs.Iterator.{at_most};
ghost use Rattle.sheet_rows.specs.Rows.{rows};
ghost use Rattle.sheet_rows.specs.Parse.{elements};
ghost use Rattle.sheet_walks.specs.Walk.{Sought, Bared, Steps, Nth, Child};

use sheet_rows::codes::kind;
use sheet_rows::part::Part;
use sheet_rows::row;

// Kept: document 01 names this enum.
#[derive(Clone, Copy, Debug, PartialEq, Eq)]
pub enum Found {
    At(usize),
    Nothing,
}

// The first element of a part from a row on.
pub fn seek(sheet: &[u32], part: Part, from: usize) -> Found
    ensures { Sought part (rows sheet.now) from result }
{
    let kind = part.kind();
    for at in from..sheet.len() / 8 {
        let r = row::row_at(sheet, at);
        if r.kind == kind {
            return Found::At(at);
        }
        if !part.passes(r.kind) {
            return Found::Nothing;
        }
    }
    Found::Nothing
}

// The elements of a part from a row on, one after another, each by its row.
#[derive(Drop)]
pub struct PartElements<'a> {
    pub sheet: &'a [u32],
    pub part: Part,
    pub next: usize,
}

pub fn elements(sheet: &[u32], part: Part, from: usize) -> PartElements<'_>
    ensures sheet { result.sheet.now ≡ sheet.now }
    ensures part { result.part ≡ part }
    ensures next { result.next ≡ from }
{
    PartElements {
        sheet,
        part,
        next: from,
    }
}

impl<'a> Iterator for PartElements<'a> {
    type Item = usize;

    ghost next_gives = { λ s r t. Steps s.part (rows s.sheet.now) s.next r t.part (rows t.sheet.now) t.next };

    ghost remaining = { λ s. at_most (length (elements s.part (drop s.next (rows s.sheet.now)))) };

    fn next(&mut self) -> Option<usize> {
        let Found::At(q) = seek(self.sheet, self.part, self.next) else {
            return None;
        };
        self.next = q + 1;
        Some(q)
    }
}

// Whether a node has no interfaces, no statements and no body order, from the row after its own on. An instance is not
// looked at.
pub fn bare(sheet: &[u32], from: usize) -> bool
    ensures { Bared (rows sheet.now) from result }
{
    for at in from..sheet.len() / 8 {
        let k = row::row_at(sheet, at).kind;
        if !Part::Interfaces.passes(k) {
            if k < kind::INTERFACE {
                return true;
            }
            return kind::ORDER < k;
        }
    }
    true
}

// The n-th, from 0.
// Kept: a loop and not Iterator's `nth`, whose usize and Option would be turned into this u32 and `Found`.
pub fn nth(sheet: &[u32], part: Part, from: usize, n: u32) -> Found
    ensures { Nth part (rows sheet.now) from n result }
{
    let mut at = from;
    for skipped in 0..n {
        let Found::At(q) = seek(sheet, part, at) else {
            return Found::Nothing;
        };
        at = q + 1;
    }
    seek(sheet, part, at)
}

// How many elements of a part there are from a row on.
pub fn count(sheet: &[u32], part: Part, from: usize) -> usize
    ensures { result ≡ length (elements part (drop from (rows sheet.now))) }
{
    elements(sheet, part, from).count()
}

// The n-th element of a part of what stands at a row: a document's node, a prototype's interface.
pub fn child(sheet: &[u32], part: Part, of: usize, n: u32) -> Found
    ensures { Child part (rows sheet.now) of n result }
{
    if sheet.len() / 8 <= of {
        return Found::Nothing;
    }
    nth(sheet, part, of + 1, n)
}
