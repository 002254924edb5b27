// The table of the bases that were looked for, each with the library's file of that base.
ghost use Rattle.std.specs.List.{position};
ghost use Rattle.std.specs.Prelude.{◌==◌, ◌≡◌, ◌+◌, ◌≤◌, ◌<◌, length, take};
ghost use Rattle.sheet_rows.specs.Rows.{rows};
ghost use Rattle.words_lent.specs.Words.{Outside};
ghost use Rattle.pick_file.specs.File.{Capped};
ghost use Rattle.pick_table.specs.Table.{Empty, IsFileOf, FilesListed, BaseAdded};

use sheet_rows::part::Part;
use sheet_rows::row;
use sheet_walks::walk;

// A file of the library: its number, from 1, and the row where its document begins.
#[derive(Clone, Copy, Debug, PartialEq, Eq)]
pub struct Source {
    pub number: u32,
    pub row: usize,
}

// The first `count` bases, in the order in which they were looked for, each with its file, if it has one.
// Kept: arrays with a count: there is no heap, and document 01 has `[u32; 64]` bases with how many are used.
#[derive(Drop)]
pub struct Table {
    pub bases: [u32; 64],
    pub files: [Option<Source>; 64],
    pub count: usize,
}

// Where a base stands in a list of bases, if it does.
pub fn position(bases: &[u32], base: u32) -> Option<usize>
    ensures { result ≡ position (λ b. b == base) bases.now }
{
    bases.iter().position(|b| *b == base)
}

// Writes the row of each file of the library to the words; how many there are, 0 if they don't fit.
pub fn list(library: &[u32], slots: &mut [u32]) -> usize
    requires { Capped library.now }
    ensures { (result ≤ length slots.new) × FilesListed (rows library.now) (take result slots.new) }
{
    // Kept: a number, counted by hand: it is the length of the list, and an empty list is searched as none is.
    let mut n = 0;
    for q in walk::elements(library, Part::Files, 0) {
        if slots.len() <= n {
            return 0;
        }
        slots[n] = q as u32;
        n += 1;
    }
    n
}

// The library's file of a base, the last of several, by one walk over the files.
fn walked(library: &[u32], base: u32) -> Option<Source>
    requires { Capped library.now }
    ensures { IsFileOf (rows library.now) base result }
{
    let mut best = None;
    let mut number = 1;
    for q in walk::elements(library, Part::Files, 0) {
        if row::row_at(library, q).a == base {
            best = Some(Source { number, row: q + 1 });
        }
        number += 1;
    }
    best
}

// The same by the list of the files, from the last one back.
pub fn library_file(library: &[u32], files: &[u32], base: u32) -> Option<Source>
    requires { Capped library.now × FilesListed (rows library.now) files.now }
    ensures { IsFileOf (rows library.now) base result }
{
    if files.is_empty() {
        return walked(library, base);
    }
    for j in (0..files.len()).rev() {
        let q = files[j] as usize;
        if row::row_at(library, q).a == base {
            return Some(Source {
                number: (j + 1) as u32,
                row: q + 1,
            });
        }
    }
    None
}

impl Table {
    // The table of no base.
    pub fn new() -> Table
        ensures { Empty result }
    {
        Table {
            bases: [0; 64],
            files: [None; 64],
            count: 0,
        }
    }

    // One base more.
    pub fn add(&mut self, base: u32, source: Option<Source>)
        requires { self.old.count < 64 }
        ensures { BaseAdded self.old base source self.new }
    {
        let at = self.count;
        self.bases[at] = base;
        self.files[at] = source;
        self.count = at + 1;
    }
}
