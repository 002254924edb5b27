#![tactic(auto)]
// What `source_lookup` answers by is written here: the directory, and in the lent words the indexes, the tables of names and the
// cache of picks.
mod cache;
mod listing;

ghost use Rattle.source_setup.specs.Prepared.{Fit, DirectoryWritten, Prepared};

use source_directory;
use source_directory::indexes;

// Writes the directory of the documents: the words before the region are scratch.
fn write_directory<'a>(
    root: &'a [u32],
    library: &'a [u32],
    work: &mut [u32],
    at: usize,
    len: usize,
    dir: &mut [u32],
)
    requires { Fit root.now library.now work.old at len dir.old }
    ensures { DirectoryWritten root.now library.now work.old work.new at len dir.new }
{
    let table = pick_table::bases_of(root, library, &mut work[..at]);
    source_directory::store(library, table, dir);
    dir[source_directory::STRIDE] = indexes::stride(root.len() / 8 + library.len() / 8, len / 2);
    dir[source_directory::FROM] = at as u32;
    dir[source_directory::END] = (at + len) as u32;
}

// Kept: places and no slices. What is written says places, counted from the first of all the words, and the scratch is lent
// with them.

// Writes the directory, and to the words [at, at + len) of work the indexes, the tables of names and the cache of picks.
// The words before them are scratch; those after them stay.
pub fn prepare<'a>(
    root: &'a [u32],
    library: &'a [u32],
    work: &mut [u32],
    at: usize,
    len: usize,
    dir: &mut [u32],
)
    requires { Fit root.now library.now work.old at len dir.old }
    ensures { Prepared root.now library.now work.old work.new at len dir.new }
{
    write_directory(root, library, work, at, len, dir);
    let end = at + len;
    let indexed = indexes::index_all(root, library, dir, work, at, end);
    let next = listing::list(root, library, dir, work, at, indexed, end);
    words_lent::clear(dir, source_directory::PICKS, source_directory::SIZE);
    dir[source_directory::PICKS] = next as u32;
    cache::remember(root, library, dir, work);
}
