#![tactic(auto)]
// The directory of the documents that an expansion can meet, in lent words: at each of the 65 slots its document's number, then
// what the constants say.
pub mod indexes;

ghost use Rattle.std.specs.Prelude.{◌≡◌, ◌+◌, ◌*◌, ◌≤◌, ◌<◌, length, drop};
ghost use Rattle.sheet_rows.specs.Rows.{rows};
ghost use Rattle.pick_table.specs.Table.{TableSound};
ghost use Rattle.source_directory.specs.Directory.{size, number_of, row_of, DocumentOf, source_in, number_in, row_in, TableStored};

use pick_table::table::{Source, Table};

// Where the words of the directory stand. The row where each slot's document begins:
pub const ROWS: usize = 65;
// the bases, and how many there are;
pub const BASES: usize = 130;

pub const COUNT: usize = 194;
// how many elements a word of an index stands for;
pub const STRIDE: usize = 195;
// where the list of the tables of names begins, and how many places it has;
pub const NAMES: usize = 196;

pub const SPREAD: usize = 197;
// where the region of work begins, and where it ends;
pub const FROM: usize = 198;

pub const END: usize = 199;
// for each slot and group the place and size of its index;
pub const GROUPS: usize = 200;
// of these the sizes of the root's prototypes' and externs';
pub const ROOT_PROTOS: usize = GROUPS + 3;

pub const ROOT_EXTERNS: usize = GROUPS + 5;
// where the cached picks of each slot's externs begin; they end where those of the next slot do;
pub const PICKS: usize = 590;
// how many words there are.
pub const SIZE: usize = 656;

// The number of a slot's document.
pub fn number(dir: &[u32], slot: u32) -> u32
    requires { slot < length dir.now }
    ensures { result ≡ number_of dir.now slot }
{
    dir[slot as usize]
}

// The same, if the slot stands for a document: 0 is the root's number at slot 0, and no file's.
pub fn document(dir: &[u32], slot: usize) -> Option<u32>
    requires { slot < length dir.now }
    ensures { DocumentOf dir.now slot result }
{
    let number = dir[slot];
    if 0 < slot && number == 0 {
        return None;
    }
    Some(number)
}

// A row of the library as a word: past the end any row is the same.
fn row_word(library: &[u32], row: usize) -> u32
    requires { length library.now ≤ 8 * 1048576 }
    ensures { drop result (rows library.now) ≡ drop row (rows library.now) }
{
    let count = library.len() / 8;
    if row < count {
        return row as u32;
    }
    count as u32
}

// The file of the j-th base.
pub fn file(dir: &[u32], j: usize) -> Option<Source>
    requires { (j < 64) × (size ≤ length dir.now) }
    ensures { result ≡ source_in (number_of dir.now (j + 1)) (row_of dir.now (j + 1)) }
{
    let slot = j + 1;
    let number = document(dir, slot)?;
    Some(Source {
        number,
        row: dir[ROWS + slot] as usize,
    })
}

// The two words that say a file: its number, or 0 for none, and its row.
fn words_of(library: &[u32], file: Option<Source>) -> (u32, u32)
    requires { length library.now ≤ 8 * 1048576 }
    ensures { (result.0 ≡ number_in file) × (drop result.1 (rows library.now) ≡ drop (row_in file) (rows library.now)) }
{
    match file {
        Some(file) => (file.number, row_word(library, file.row)),
        None => (0, 0),
    }
}

// Writes the root's entry and the table of bases.
pub fn store(library: &[u32], table: Table, dir: &mut [u32])
    requires { (length library.now ≤ 8 * 1048576) × (size ≤ length dir.old) × TableSound (rows library.now) table }
    ensures { (length dir.new ≡ length dir.old) × TableStored (rows library.now) table dir.new 64 }
{
    dir[0] = 0;
    dir[ROWS] = 0;
    dir[COUNT] = table.count as u32;
    for j in 0..64 {
        let slot = j + 1;
        let (number, row) = words_of(library, table.files[j]);
        dir[slot] = number;
        dir[ROWS + slot] = row;
        dir[BASES + j] = table.bases[j];
    }
}
