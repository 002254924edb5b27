// The cache of the picks of the externs of every document.
ghost use Rattle.std.specs.Prelude.{◌+◌, ◌≤◌, ◌<◌, length};
ghost use Rattle.source_directory.specs.Directory.{base_count};
ghost use Rattle.source_lookup.specs.Instance.{target_in, mark_in, Packs};
ghost use Rattle.source_setup.specs.Prepared.{PickKept, NoneCached, CachedBefore, SlotAdded, PicksCached};

use ast::ExternProtoId;
use pick_memo::Memo;
use sheet_walks::walk::Found;
use source_directory;
use source_lookup::Sources;
use source_lookup::instance::Taken;

// Writes a pick to the two words at a place.
fn keep(pick: Option<Taken>, work: &mut [u32], at: usize)
    requires { (at + 1 < length work.old) × Packs (target_in pick) (mark_in pick) }
    ensures { PickKept work.old work.new at (target_in pick) (mark_in pick) }
{
    let (word, proto) = Taken::pack(pick);
    work[at] = word;
    work[at + 1] = proto;
}

// Writes the picks of the externs of a slot's document, in order, to the words from a place on, while the region has room; the
// place after them.
fn of_slot(
    sources: &Sources<'_>,
    work: &mut [u32],
    slot: u32,
    place: usize,
    memo: &mut Memo,
) -> usize
    requires { CachedBefore sources.now.root.now sources.now.library.now sources.now.dir.now work.old memo.old slot place × (slot ≤ base_count sources.now.dir.now) }
    ensures { SlotAdded sources.now.root.now sources.now.library.now sources.now.dir.now work.old work.new memo.new slot place result }
{
    if source_directory::document(sources.dir, slot as usize).is_none() {
        return place;
    }
    let from = sources.dir[source_directory::FROM] as usize;
    let end = sources.dir[source_directory::END] as usize;
    let room = (end - place) / 2;
    for i in 0..room {
        let at = place + 2 * i;
        let Found::At(row) = sources.extern_proto(work, slot, ExternProtoId(i as u32)) else {
            return at;
        };
        let pick = sources.pick_row(slot, row, memo, &mut work[..from]);
        keep(pick, work, at);
    }
    place + 2 * room
}

// Adds the picks of all documents to the cache, the root's first, while the region has room.
pub fn remember<'a>(root: &'a [u32], library: &'a [u32], dir: &mut [u32], work: &mut [u32])
    requires { NoneCached root.now library.now dir.old work.old }
    ensures { PicksCached root.now library.now dir.old dir.new work.old work.new }
{
    let from = dir[source_directory::FROM] as usize;
    let count = dir[source_directory::COUNT];
    let mut memo = Memo::fresh(&mut work[..from]);
    let mut at = dir[source_directory::PICKS] as usize;
    for slot in 0..=count {
        let sources = Sources { root, library, dir };
        at = of_slot(&sources, work, slot, at, &mut memo);
        dir[source_directory::PICKS + (slot as usize + 1)] = at as u32;
    }
}
