// The elements of the groups of each document, by their indexes.
ghost use Rattle.std.specs.Prelude.{◌+◌};
ghost use Rattle.sheet_rows.specs.Rows.{rows};
ghost use Rattle.sheet_lookup.specs.Lookup.{sheet_of};
ghost use Rattle.sheet_walks.specs.Walk.{Nth};
ghost use Rattle.source_directory.specs.Directory.{number_of, row_of, group_number, group_part, Slot};
ghost use Rattle.source_lookup.specs.Sourced.{Sourced};

use super::Sources;
use sheet_index::PartIndex;
use sheet_lookup::rows;
use sheet_walks::walk::Found;
use source_directory;
use source_directory::indexes::Group;

impl Sources<'_> {
    // An element of a group of a slot's document.
    pub fn locate(&self, work: &[u32], slot: u32, group: Group, id: u32) -> Found
        requires { Sourced self.now.root.now self.now.library.now self.now.dir.now work.now × Slot self.now.dir.now slot }
        ensures { Nth (group_part (group_number group)) (rows (sheet_of self.now.root.now self.now.library.now (number_of self.now.dir.now slot))) (row_of self.now.dir.now slot + 1) id result }
    {
        let slot = slot as usize;
        let from = self.dir[source_directory::ROWS + slot] as usize + 1;
        let entry = group.entry(slot);
        let place = self.dir[entry] as usize;
        let filled = self.dir[entry + 1] as usize;
        let index = PartIndex {
            sheet: rows::select(self.root, self.library, self.dir[slot]),
            part: group.part(),
            from,
            stride: self.dir[source_directory::STRIDE],
            slots: &work[place..place + filled],
        };
        index.find(id)
    }
}
