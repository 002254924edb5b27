// The prototype that a node is an instance of, and the cache of the picks of the externs.
ghost use Rattle.std.specs.Prelude.{◌≡◌, ◌/◌, ◌≤◌, ◌<◌, length};
ghost use Rattle.sheet_rows.specs.Rows.{rows};
ghost use Rattle.sheet_rows.specs.Parse.{document_of, files_of};
ghost use Rattle.sheet_lookup.specs.Lookup.{sheet_of};
ghost use Rattle.pick_definition.specs.Picks.{pick_of};
ghost use Rattle.pick_memo.specs.Memo.{MemoSound};
ghost use Rattle.source_directory.specs.Directory.{number_of, Slot, bases_found, Directory};
ghost use Rattle.source_lookup.specs.Instance.{PickedAs, Packs, target_in, mark_in, target_said, urls_picked};
ghost use Rattle.source_lookup.specs.Sourced.{Sourced};

use super::Sources;
use ast::{ExternProtoId, ProtoId};
use pick_file;
use pick_memo::Memo;
use pick_table::table;
use sheet_lookup::rows;
use sheet_rows::part::Part;
use sheet_rows::row;
use sheet_walks::walk;
use sheet_walks::walk::Found;
use source_directory;

// A PROTO of a slot's document.
#[derive(Clone, Copy, Debug, PartialEq, Eq)]
pub struct Target {
    pub slot: u32,
    pub proto: ProtoId,
}

// The pick of an extern, and the mark of the url that it took: its index with one added.
#[derive(Clone, Copy, Debug, PartialEq, Eq)]
pub struct Taken {
    pub target: Target,
    pub mark: u32,
}

// How many slots there are: the root's and those of 64 bases.
const SLOTS: u32 = 65;

impl Taken {
    // A pick in two words: its mark * SLOTS + its slot, or 0 for none (a mark is at least 1); the PROTO's id.
    pub fn pack(pick: Option<Taken>) -> (u32, u32)
        requires { Packs (target_in pick) (mark_in pick) }
        ensures { (target_said result.0 result.1 ≡ target_in pick) × (result.0 / 65 ≡ mark_in pick) }
    {
        match pick {
            Some(taken) => {
                let word = taken.mark * SLOTS + taken.target.slot;
                (word, taken.target.proto.0)
            }
            None => (0, 0),
        }
    }

    // The pick that two words say.
    pub fn unpack(word: u32, proto: u32) -> Option<Taken>
        ensures { (target_in result ≡ target_said word proto) × (mark_in result ≡ word / 65) }
    {
        if word == 0 {
            return None;
        }
        let target = Target {
            slot: word % SLOTS,
            proto: ProtoId(proto),
        };
        Some(Taken {
            target,
            mark: word / SLOTS,
        })
    }
}

impl Sources<'_> {
    // The pick of the extern at a row of a slot's document: its urls in order, by the bases of the directory. A url of another base
    // was skipped.
    pub fn pick_row(
        &self,
        slot: u32,
        row: usize,
        memo: &mut Memo,
        slots: &mut [u32],
    ) -> Option<Taken>
        requires directory { Directory self.now.root.now self.now.library.now self.now.dir.now × Slot self.now.dir.now slot × (row < length (rows (sheet_of self.now.root.now self.now.library.now (number_of self.now.dir.now slot)))) }
        requires row_value { ((urls_picked self.now.root.now self.now.library.now (rows (sheet_of self.now.root.now self.now.library.now (number_of self.now.dir.now slot))) row).1 ≡ bases_found self.now.root.now self.now.library.now) × MemoSound (rows self.now.library.now) slots.old memo.old }
        ensures { PickedAs self.now.dir.now (urls_picked self.now.root.now self.now.library.now (rows (sheet_of self.now.root.now self.now.library.now (number_of self.now.dir.now slot))) row).0 (target_in result) (mark_in result) × (mark_in result ≤ 1048576) × MemoSound (rows self.now.library.now) slots.new memo.new }
    {
        let count = self.dir[source_directory::COUNT] as usize;
        let sheet = rows::select(
            self.root,
            self.library,
            source_directory::number(self.dir, slot),
        );
        let bases = &self.dir[source_directory::BASES..source_directory::BASES + count];
        // Kept: the count beside the loop. `enumerate` was tried: it asks for a bound on how many elements there are.
        let mut mark: u32 = 0;
        for q in walk::elements(sheet, Part::Urls, row + 1) {
            mark += 1;
            let r = row::row_at(sheet, q);
            if let Some(j) = table::position(bases, r.a) {
                let file = source_directory::file(self.dir, j);
                let fragment = pick_file::optional(r.b);
                let led = pick_table::pick_from(self.library, file, j, fragment, memo, slots);
                if let Some(chosen) = led {
                    let target = Target {
                        slot: (j + 1) as u32,
                        proto: chosen.id,
                    };
                    return Some(Taken { target, mark });
                }
            }
        }
        None
    }

    // The pick of an extern of a slot's document: by the cache, else by a walk.
    pub fn picked(&self, work: &[u32], slot: u32, id: ExternProtoId) -> Option<Taken>
        requires { Sourced self.now.root.now self.now.library.now self.now.dir.now work.now × Slot self.now.dir.now slot }
        ensures { PickedAs self.now.dir.now (pick_of (document_of (rows self.now.root.now)) (files_of (rows self.now.library.now)) (number_of self.now.dir.now slot) id.0) (target_in result) (mark_in result) }
    {
        let s = slot as usize;
        let at = self.dir[source_directory::PICKS + s] as usize + 2 * id.0 as usize;
        if at + 2 <= self.dir[source_directory::PICKS + (s + 1)] as usize {
            return Taken::unpack(work[at], work[at + 1]);
        }
        let Found::At(row) = self.extern_proto(work, slot, id) else {
            return None;
        };
        let mut none = [0u32; 1];
        let mut memo = Memo::fresh(&mut none);
        self.pick_row(slot, row, &mut memo, &mut none)
    }
}
