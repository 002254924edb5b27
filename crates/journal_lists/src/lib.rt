#![tactic(auto)]
// Records in lists: those that a scope owns, and the families of stored values.
// Kept: the words with a record's place or handle, as in `journal_records`.
ghost use Rattle.std.specs.Prelude.{◌+◌, ◌*◌, ◌≤◌, length};
ghost use Rattle.journal_lists.specs.Owned.{Ownable, Appended};
ghost use Rattle.journal_lists.specs.Families.{Behind, Joins, Joinable, Joined};

use journal_index::Heads;
use journal_records::{Record, words};

// A record that the scope at place `s` owns, behind the last of its tag.
pub fn append(work: &mut [u32], s: usize, c: usize, r: Record)
    requires { Ownable work.old s c r }
    ensures { Appended work.old work.new s c r }
{
    let j = r.tag as usize - 2;
    let q = journal_records::word(work, s, j);
    journal_records::push(work, c, Record { h: q, ..r });
    journal_records::set(work, s, j, (c + 1) as u32);
}

// The family that a record behind handle `h` joins: that of the record of `h` if it is the family's newest, else `c`.
fn family(work: &[u32], c: usize, h: u32) -> usize
    requires { (c * 12 ≤ length work.now) × Behind work.now c h }
    ensures { Joins work.now c h result }
{
    if h == 0 {
        return c;
    }
    let f = journal_records::word(work, h as usize - 1, words::stored::FAMILY) as usize;
    if journal_records::word(work, f, words::stored::NEWEST) != h {
        return c;
    }
    f
}

// A stored value behind handle `r.h`, the newest of the family that it joins or starts.
pub fn join(work: &mut [u32], heads: Heads, c: usize, r: Record)
    requires { Joinable work.old heads.at heads.slots c r }
    ensures { Joined work.old work.new heads.at heads.slots c r }
{
    let f = family(work, c, r.h);
    journal_index::enter(work, heads, c, Record { a: f as u32, ..r });
    journal_records::set(work, f, words::stored::NEWEST, (c + 1) as u32);
}
