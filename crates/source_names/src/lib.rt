#![tactic(auto)]
// The last field of a name, of a node: by a walk over its fields, or by a table where it is an instance and the walk takes
// many rows. A table has the rows of the node's fields, sorted by name. The list of the tables has a place for 16 rows,
// fewer than such a node has: first for the root's rows, then for the library's.
ghost use Rattle.std.specs.Prelude.{◌≡◌, List, ℕ, ◌+◌, ◌*◌, ◌≤◌, ◌<◌, length};
ghost use Rattle.sheet_rows.specs.Rows.{rows};
ghost use Rattle.sheet_lookup.specs.Lookup.{sheet_of};
ghost use Rattle.source_names.specs.Names.{LastField, NameTable, table_sheet, TablesListed, FieldsListed, TablesGrown};

use sheet_lookup::rows;
use sheet_rows::part::Part;
use sheet_rows::{codes, row};
use sheet_sorted::{Column, NAME};
use sheet_walks::walk;
use sheet_walks::walk::Found;

// Where the words of the tables stand: scratch up to `free`, the list of so many places from `at` on, the tables behind it up
// to `end`.
// Kept: places and no slices, since the lent words of the list and of a table hold places (no heap).
#[derive(Clone, Copy)]
pub struct Room {
    pub free: usize,
    pub at: usize,
    pub many: usize,
    pub end: usize,
}

// By a walk: the row of the last field of a name, of the node that stands at a row.
pub fn walked(sheet: &[u32], node: usize, name: u32) -> Found
    requires { node < length (rows sheet.now) }
    ensures { LastField name (rows sheet.now) node result }
{
    let mut best = Found::Nothing;
    for q in walk::elements(sheet, Part::Fields, node + 1) {
        if row::row_at(sheet, q).a == name {
            best = Found::At(q);
        }
    }
    best
}

// By the node's table: the rows of its fields, sorted by name.
pub fn named(sheet: &[u32], table: &[u32], node: usize, name: u32) -> Found
    requires { NameTable sheet.now node (length table.now) table.now 0 }
    ensures { LastField name (rows sheet.now) node result }
{
    let names = Column {
        sheet,
        number: NAME,
    };
    names.last(table, name)
}

// The place in the list for a node of the document of a number.
pub fn place_of(root: &[u32], number: u32, node: usize) -> usize
    requires { (length root.now ≤ 8 * 1048576) × (node ≤ 1048576) }
    ensures { (library : List ℕ) → node < length (rows (sheet_of root.now library number)) → table_sheet root.now library result ≡ sheet_of root.now library number }
{
    let i = node / 16;
    if number == 0 {
        return i;
    }
    root.len() / 128 + 1 + i
}

// Whether a walk over a node's fields takes at most 16 rows. Any answer would give the same fields.
fn narrow(sheet: &[u32], node: usize) -> bool
    requires { node < length (rows sheet.now) }
{
    let kind = Part::Fields.kind();
    for i in 1..=16 {
        let k = row::row_at(sheet, node + i).kind;
        if k != kind && !Part::Fields.passes(k) {
            return true;
        }
    }
    false
}

// Writes the rows of a node's fields to the words from a place on; the place after them, none where there is no room.
fn fill(sheet: &[u32], node: usize, work: &mut [u32], at: usize, end: usize) -> Option<usize>
    requires { (node < length (rows sheet.now)) × (length sheet.now ≤ 8 * 1048576) × (at ≤ end) × (end ≤ length work.old) }
    ensures { FieldsListed sheet.now node at end work.old work.new result }
{
    let mut to = at;
    for q in walk::elements(sheet, Part::Fields, node + 1) {
        if end <= to {
            return None;
        }
        work[to] = q as u32;
        to += 1;
    }
    Some(to)
}

// Writes the table of a node of the document of a number to the words from place on, if it is an instance of many rows and
// there is room; the place after it.
fn add<'a>(
    root: &'a [u32],
    library: &'a [u32],
    number: u32,
    node: usize,
    work: &mut [u32],
    room: Room,
    place: usize,
) -> usize
    requires root_len_bound { (length root.now ≤ 8 * 1048576) × (length library.now ≤ 8 * 1048576) × (node < length (rows (sheet_of root.now library.now number))) × (room.free ≤ room.at) × (place ≤ room.end) × (room.end ≤ length work.old) × (room.end ≤ 4294967295) }
    requires tables_listed { TablesListed root.now library.now work.old room.at room.many place }
    ensures { TablesGrown root.now library.now room.free room.at room.many place room.end result work.old work.new }
{
    let sheet = rows::select(root, library, number);
    if row::row_at(sheet, node).c == codes::origin::BUILTIN {
        return place;
    }
    let i = place_of(root, number, node);
    if room.many <= i {
        return place;
    }
    if narrow(sheet, node) {
        return place;
    }
    if room.end - place < 2 {
        return place;
    }
    let list = place + 2;
    let Some(next) = fill(sheet, node, work, list, room.end) else {
        return place;
    };
    let count = next - list;
    if room.free < count / 2 {
        return place;
    }
    let names = Column {
        sheet,
        number: NAME,
    };
    names.sort(&mut work[..next], list);
    work[place] = node as u32;
    work[place + 1] = count as u32;
    work[room.at + i] = place as u32;
    next
}

// Writes the tables of the nodes of a document, which begins at a row, to the words from place on; the place after them.
pub fn build<'a>(
    root: &'a [u32],
    library: &'a [u32],
    number: u32,
    row: usize,
    work: &mut [u32],
    room: Room,
    place: usize,
) -> usize
    requires root_len_bound { (length root.now ≤ 8 * 1048576) × (length library.now ≤ 8 * 1048576) × (row ≤ 4294967295) × (room.free ≤ room.at) × (place ≤ room.end) × (room.end ≤ length work.old) × (room.end ≤ 4294967295) }
    requires tables_listed { TablesListed root.now library.now work.old room.at room.many place }
    ensures { TablesGrown root.now library.now room.free room.at room.many place room.end result work.old work.new }
{
    let sheet = rows::select(root, library, number);
    let mut next = place;
    for node in walk::elements(sheet, Part::Nodes, row + 1) {
        next = add(root, library, number, node, work, room, next);
    }
    next
}
