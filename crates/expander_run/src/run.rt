// The run, and the writing of what it gave.
ghost use Rattle.std.specs.Prelude.{◌≡◌, Ok};
ghost use Rattle.expander_run.specs.Calls.{call_of, after_of, Allowed, Ran, Writable, written};

use super::Expanded;
use refine_records::{Counts, Journal, Limits, Refusal};
use source_directory;
use source_lookup::Sources;

// Writes what the records of an accepted run say.
pub fn write<'a>(
    root: &'a [u32],
    library: &'a [u32],
    work: &[u32],
    counts: Counts,
    tops: u32,
    out: &mut [u32],
    ledger: &mut [u32],
    scopes: &mut [u32],
) -> Expanded
    requires { Writable root.now library.now work.now counts tops out.old ledger.old scopes.old }
    ensures { after_of (Ok result) out.new ledger.new scopes.new ≡ written root.now library.now work.now counts tops out.old ledger.old scopes.old }
{
    let rows = writer_pass::document::write(
        root,
        library,
        work,
        counts.charges,
        counts.externs,
        tops,
        out,
        ledger,
        scopes,
    );
    Expanded {
        nodes: counts.nodes,
        scopes: counts.scopes,
        charges: counts.charges as u32,
        rows: rows as u32,
    }
}

// Work holds K records, then the heads of the journal's index, fewer than one for each, then the words of the source's tables:
// three and a quarter for each of K, so that with K at least the rows handed in all tables have room.
pub fn run<'a>(
    root: &'a [u32],
    library: &'a [u32],
    nodes: usize,
    depth: usize,
    rows: usize,
    out: &mut [u32],
    ledger: &mut [u32],
    scopes: &mut [u32],
    work: &mut [u32],
) -> Result<Expanded, Refusal>
    requires { Allowed (call_of root.now library.now nodes depth rows out.old ledger.old scopes.old work.old) }
    ensures { Ran (call_of root.now library.now nodes depth rows out.old ledger.old scopes.old work.old) result out.new ledger.new scopes.new }
{
    let slots = rows - rows / 4 + 32 * (depth + 1);
    let room = 3 * rows + rows / 4 + 32 * (depth + 1);
    let mut dir = [0u32; source_directory::SIZE];
    source_setup::prepare(root, library, work, rows * 12 + slots, room, &mut dir);
    let sources = Sources {
        root,
        library,
        dir: &dir,
    };
    let lim = Limits { nodes, rows, slots };
    let mut journal = Journal {
        work,
        counts: Counts {
            nodes: 0,
            scopes: 0,
            externs: 0,
            charges: 0,
        },
    };
    let tops = expander_tops::top(&sources, &mut journal, lim, depth)?;
    Ok(write(
        root,
        library,
        journal.lent(),
        journal.counts,
        tops,
        out,
        ledger,
        scopes,
    ))
}
