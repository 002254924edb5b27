// The indexes of the groups of each document.
ghost use Rattle.std.specs.Prelude.{◌≡◌, ◌-◌, ◌*◌, ◌≤◌, ◌<◌, length};
ghost use Rattle.source_directory.specs.Directory.{group_number, group_part, group_of, Directory};
ghost use Rattle.source_directory.specs.Grouped.{Grouped, AllGrouped};

use super::{COUNT, GROUPS, ROWS, STRIDE, document};
use sheet_lookup::rows;
use sheet_rows::part::Part;

// A group of a document. The indexes of a slot's groups stand in this order.
// Kept: an enum beside the trait `Numbered` of ids. An index is written for a group as a whole, where there is no id.
#[derive(Clone, Copy, Debug, PartialEq, Eq)]
pub enum Group {
    Nodes,
    Protos,
    Externs,
}

impl Group {
    pub fn part(self) -> Part
        ensures { result ≡ group_part (group_number self) }
    {
        match self {
            Group::Nodes => Part::Nodes,
            Group::Protos => Part::Protos,
            Group::Externs => Part::Externs,
        }
    }

    // Where the group's entry stands in the directory: its index's place, then its size.
    pub fn entry(self, slot: usize) -> usize
        requires { slot < 65 }
        ensures { result ≡ group_of slot (group_number self) }
    {
        let nodes = GROUPS + 6 * slot;
        match self {
            Group::Nodes => nodes,
            Group::Protos => nodes + 2,
            Group::Externs => nodes + 4,
        }
    }
}

// Three groups to each of 65 slots.
const INDEXES: usize = 195;

// So many elements to a word that the indexes of all rows fit the room: one where the room has a word for each row, else so
// many that each of the indexes may have a word that stands for fewer. Any other number would give the same answers.
pub fn stride(total: usize, room: usize) -> u32
    requires { total ≤ 2 * 1048576 }
    ensures { (0 < result) × (total ≤ room → result ≡ 1) × (195 < room → room < total → total < result * (room - 195)) }
{
    if total <= room {
        return 1;
    }
    if room <= INDEXES {
        return (total + 1) as u32;
    }
    (total / (room - INDEXES) + 1) as u32
}

// Kept: places and no slices. The directory says at which place of all the words an index stands.

// Writes the index of a group of a slot's document to the words from a place on; the place after it.
fn index_one<'a>(
    root: &'a [u32],
    library: &'a [u32],
    dir: &mut [u32],
    work: &mut [u32],
    slot: usize,
    group: Group,
    place: usize,
    end: usize,
) -> usize
    requires { Directory root.now library.now dir.old × (slot < 65) × (place ≤ end) × (end ≤ length work.old) × (end ≤ 4294967295) }
    ensures { Grouped root.now library.now dir.old dir.new work.old work.new slot (group_number group) place end result }
{
    let Some(number) = document(dir, slot) else {
        return place;
    };
    let row = dir[ROWS + slot] as usize;
    let stride = dir[STRIDE];
    let at = group.entry(slot);
    let sheet = rows::select(root, library, number);
    let n = sheet_index::index(sheet, group.part(), row + 1, stride, &mut work[place..end]);
    dir[at] = place as u32;
    dir[at + 1] = n as u32;
    place + n
}

// Writes the indexes of all documents to the words from at up to end, the root's first; where they end.
pub fn index_all<'a>(
    root: &'a [u32],
    library: &'a [u32],
    dir: &mut [u32],
    work: &mut [u32],
    at: usize,
    end: usize,
) -> usize
    requires { Directory root.now library.now dir.old × (at ≤ end) × (end ≤ length work.old) × (end ≤ 4294967295) }
    ensures { AllGrouped root.now library.now dir.old dir.new work.old work.new at end result }
{
    let count = dir[COUNT] as usize;
    let mut place = at;
    for slot in 0..=count {
        let protos = index_one(root, library, dir, work, slot, Group::Nodes, place, end);
        let externs = index_one(root, library, dir, work, slot, Group::Protos, protos, end);
        place = index_one(root, library, dir, work, slot, Group::Externs, externs, end);
    }
    place
}
