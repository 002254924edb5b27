// The tables of names of the documents' nodes, in the directory.
ghost use Rattle.std.specs.Prelude.{◌+◌, ◌*◌, ◌≤◌, ◌<◌, length};
ghost use Rattle.source_names.specs.Names.{TablesListed, TablesGrown};
ghost use Rattle.source_directory.specs.Directory.{size, base_count};
ghost use Rattle.source_setup.specs.Listing.{Listing};

use source_directory;
use source_names::Room;

// Writes the tables of a slot's document to the words from place on; the place after them.
fn of_slot<'a>(
    root: &'a [u32],
    library: &'a [u32],
    dir: &[u32],
    slot: usize,
    work: &mut [u32],
    room: Room,
    place: usize,
) -> usize
    requires root_len_bound { (length root.now ≤ 8 * 1048576) × (length library.now ≤ 8 * 1048576) × (size ≤ length dir.now) × (slot < 65) × (room.free ≤ room.at) × (place ≤ room.end) × (room.end ≤ length work.old) × (room.end ≤ 4294967295) }
    requires tables_listed { TablesListed root.now library.now work.old room.at room.many place }
    ensures { TablesGrown root.now library.now room.free room.at room.many place room.end result work.old work.new }
{
    let Some(number) = source_directory::document(dir, slot) else {
        return place;
    };
    let row = dir[source_directory::ROWS + slot] as usize;
    source_names::build(root, library, number, row, work, room, place)
}

// Writes the list, and the tables of all documents behind it; the place after them.
fn of_all<'a>(
    root: &'a [u32],
    library: &'a [u32],
    dir: &[u32],
    work: &mut [u32],
    room: Room,
) -> usize
    requires { (length root.now ≤ 8 * 1048576) × (length library.now ≤ 8 * 1048576) × (size ≤ length dir.now) × (base_count dir.now ≤ 64) × (room.free ≤ room.at) × (room.at + room.many ≤ room.end) × (room.end ≤ length work.old) × (room.end ≤ 4294967295) }
    ensures { TablesGrown root.now library.now room.free room.at room.many room.at room.end result work.old work.new }
{
    words_lent::clear(work, room.at, room.at + room.many);
    let count = dir[source_directory::COUNT] as usize;
    let mut place = room.at + room.many;
    for slot in 0..=count {
        place = of_slot(root, library, dir, slot, work, room, place);
    }
    place
}

// Writes list and tables to the words from at up to end, where the root has a PROTO or an extern; the place after them. The
// words up to free are scratch.
pub fn list<'a>(
    root: &'a [u32],
    library: &'a [u32],
    dir: &mut [u32],
    work: &mut [u32],
    free: usize,
    at: usize,
    end: usize,
) -> usize
    requires { (length root.now ≤ 8 * 1048576) × (length library.now ≤ 8 * 1048576) × (size ≤ length dir.old) × (base_count dir.old ≤ 64) × (free ≤ at) × (at ≤ end) × (end ≤ length work.old) × (end ≤ 4294967295) }
    ensures { Listing root.now library.now dir.old dir.new work.old work.new free at end result }
{
    dir[source_directory::NAMES] = at as u32;
    dir[source_directory::SPREAD] = 0;
    let protos = dir[source_directory::ROOT_PROTOS];
    let externs = dir[source_directory::ROOT_EXTERNS];
    if (protos == 0) & (externs == 0) {
        return at;
    }
    let many = root.len() / 128 + library.len() / 128 + 2;
    if end - at < many {
        return at;
    }
    dir[source_directory::SPREAD] = many as u32;
    let room = Room {
        free,
        at,
        many,
        end,
    };
    of_all(root, library, dir, work, room)
}
