#![tactic(auto)]
// The steps on an instance's values: storing one, finding one by its name, cloning one.
// Kept: the limits apart from the journal, and a value's type, class and payload one by one, as at `refine_records::Journal` and in
// the constructors of `journal_records`.
ghost use Rattle.std.specs.Prelude.{◌≡◌, ◌+◌, ◌-◌, length};
ghost use Rattle.journal_records.specs.Records.{tag_id, tag_stored};
ghost use Rattle.journal_reading.specs.Reading.{ids_at};
ghost use Rattle.journal_reading.specs.WellFormed.{HandleAt, Walkable};
ghost use Rattle.refine_records.specs.Does.{number_given};
ghost use Rattle.refine_records.specs.Sound.{Standing, StillLent};
ghost use Rattle.refine_records.specs.Contract.{Storable, ValueKept, ValueFound, Cloned};

use journal_index::Key;
use journal_records;
use journal_records::list::records;
use journal_records::{Record, words};
use refine_records::{Counts, Journal, Limits, Refusal};
use sheet_rows::codes;

// A charge and the stored value of a name, behind those of `h`; the value is its handle.
pub fn store(
    journal: &mut Journal<'_>,
    lim: Limits,
    name: u32,
    ty: u32,
    class: u32,
    payload: u32,
    h: u32,
) -> Result<u32, Refusal>
    requires standing { Standing lim journal.old.work.now journal.old.counts }
    requires storable { Storable journal.old.work.now journal.old.counts.charges class payload h }
    ensures stored { ValueKept lim journal.old.work.now journal.old.counts name ty class payload h journal.new.work.now (number_given journal.new.counts result) }
    ensures still_lent { StillLent journal.old journal.new }
{
    let c = journal.room(lim)?;
    journal_lists::join(
        journal.work,
        lim.heads(),
        c,
        Record::stored(name, ty, class, payload, h),
    );
    journal.counts.charges += 1;
    Ok((c + 1) as u32)
}

// How many stored values are looked at one by one.
const FEW: usize = 8;

// The stored value of a name, newest first: one by one for the first few, then family by family.
// Kept: the second loop by hand: it goes from family to family, and no list links these.
pub fn value_of(work: &[u32], lim: Limits, counts: Counts, values: u32, name: u32) -> Option<usize>
    requires standing { Standing lim work.now counts }
    requires handle_at { HandleAt work.now counts.charges tag_stored values }
    ensures { ValueFound work.now values name result }
{
    let mut list = records(work, values as usize);
    for looked in 0..FEW {
        let Some(r) = list.next() else {
            return None;
        };
        if journal_records::word(work, r, words::stored::NAME) == name {
            return Some(r);
        }
    }
    let mut cur = list.next;
    while 0 < cur {
        let f = journal_records::word(work, cur - 1, words::stored::FAMILY);
        let x = journal_index::find_below(
            work,
            lim.heads(),
            counts.charges,
            cur,
            Key {
                tag: journal_records::TAG_STORED,
                x: f,
                y: name,
            },
        );
        if x.is_some() {
            return x;
        }
        cur = journal_records::word(work, f as usize, words::BEFORE) as usize;
    }
    None
}

// How many ids a list has.
fn count(journal: &Journal<'_>, ids: u32) -> usize
    requires { Walkable journal.now.work.now tag_id ids }
    ensures { result ≡ length (ids_at journal.now.work.now ids) }
{
    records(journal.work, ids as usize).count()
}

// The charges of a value that is cloned: one for each id.
pub fn clone(
    journal: &mut Journal<'_>,
    lim: Limits,
    class: u32,
    payload: u32,
) -> Result<u32, Refusal>
    requires standing { Standing lim journal.old.work.now journal.old.counts }
    requires handle_at { class ≡ 2 → HandleAt journal.old.work.now journal.old.counts.charges tag_id payload }
    ensures cloned { Cloned lim journal.old.work.now journal.old.counts class payload journal.new.work.now (number_given journal.new.counts result) }
    ensures still_lent { StillLent journal.old journal.new }
{
    if class != codes::class::NODES {
        return Ok(payload);
    }
    let n = count(journal, payload);
    let c = journal.counts.charges;
    if lim.rows - c < n {
        return Err(Refusal::TooManyRows);
    }
    journal_records::paid(journal.work, c, n);
    journal.counts.charges += n;
    Ok(payload)
}
