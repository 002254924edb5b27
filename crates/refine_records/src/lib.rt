#![tactic(auto)]
// What an expansion keeps by value, and the steps that write one record of the journal.
ghost use Rattle.std.specs.Prelude.{◌≡◌, ◌+◌, ◌-◌, ◌*◌, ◌≤◌, ◌<◌, length};
ghost use Rattle.journal_records.specs.Records.{cell};
ghost use Rattle.journal_index.specs.Index.{Findable, found_of, newest};
ghost use Rattle.refine_records.specs.Refusals.{refusal_number, PlacesOf};
ghost use Rattle.refine_records.specs.Does.{number_given, done_given, scope_given};
ghost use Rattle.refine_records.specs.Sound.{Standing, StillLent};
ghost use Rattle.refine_records.specs.Contract.{charged as counted, RoomFor, Keepable, RecordKept, Ownership, RecordOwned, ScopeOpened};

use ast::{NodeId, ProtoId};
use journal_index::{Heads, Key};
use journal_records;
use journal_records::Record;

// The most nodes and records of an expansion, and how many heads the journal's index has, which starts behind the records.
#[derive(Clone, Copy, Debug, PartialEq, Eq)]
pub struct Limits {
    pub nodes: usize,
    pub rows: usize,
    pub slots: usize,
}

impl Limits {
    // The heads of the journal's index.
    pub fn heads(self) -> Heads
        requires { self.rows ≤ 16777216 }
        ensures at { result.at ≡ self.rows * 12 }
        ensures slots { result.slots ≡ self.slots }
    {
        Heads {
            at: self.rows * 12,
            slots: self.slots,
        }
    }
}

// How many of each there are so far. A record is a charge.
#[derive(Clone, Copy, Debug, PartialEq, Eq)]
pub struct Counts {
    pub nodes: u32,
    pub scopes: u32,
    pub externs: usize,
    pub charges: usize,
}

// The Rust's Env: the scope's number and the place of its record, its document's slot, and in a body the handle of the
// instance's interface values.
#[derive(Clone, Copy, Debug, PartialEq, Eq)]
pub struct Env {
    pub scope: u32,
    pub place: usize,
    pub slot: u32,
    pub values: Option<u32>,
}

// The journal of an expansion: its records in lent words, and how many of each there are.
// Kept: the limits and the sources are parameters beside it: behind its `&mut` each contract would have to say that they stay.
// `Standing` is no ghost field: it speaks of the limits, and fails between a record's words and its count.
#[derive(Drop)]
pub struct Journal<'w> {
    pub work: &'w mut [u32],
    pub counts: Counts,
}

// A scope that was opened: its number, and the place of its record.
#[derive(Clone, Copy, Debug, PartialEq, Eq)]
pub struct Opened {
    pub number: u32,
    pub place: usize,
}

// A node of the output, and the place of its record with one added.
#[derive(Clone, Copy, Debug, PartialEq, Eq)]
pub struct NodeCopy {
    pub id: NodeId,
    pub place: u32,
}

// Why Expand says no, in the order of the numbers 1 to 10. 11, no room for a further scope, cannot come: scopes has room for an
// entry to each charge.
#[derive(Clone, Copy, Debug, PartialEq, Eq)]
pub enum Refusal {
    NoRoom,
    WrongLength,
    Malformed { sheet: u32, row: u32 },
    DanglingExtern { document: u32, id: u32 },
    DanglingNode { document: u32, id: u32 },
    DanglingProto { document: u32, id: u32 },
    NoRoot { document: u32, proto: u32 },
    TooManyNodes,
    TooDeep,
    TooManyRows,
}

// The number that C reads.
impl From<Refusal> for u32 {
    ghost from_gives = { λ e n. n ≡ refusal_number e };

    fn from(e: Refusal) -> u32 {
        match e {
            Refusal::NoRoom => 1,
            Refusal::WrongLength => 2,
            Refusal::Malformed { .. } => 3,
            Refusal::DanglingExtern { .. } => 4,
            Refusal::DanglingNode { .. } => 5,
            Refusal::DanglingProto { .. } => 6,
            Refusal::NoRoot { .. } => 7,
            Refusal::TooManyNodes => 8,
            Refusal::TooDeep => 9,
            Refusal::TooManyRows => 10,
        }
    }
}

impl Refusal {
    // The two places that C reads; 0 where the refusal names none.
    pub fn places(self) -> (u32, u32)
        ensures { PlacesOf self result }
    {
        match self {
            Refusal::Malformed { sheet, row } => (sheet, row),
            Refusal::DanglingExtern { document, id }
            | Refusal::DanglingNode { document, id }
            | Refusal::DanglingProto { document, id } => (document, id),
            Refusal::NoRoot { document, proto } => (document, proto),
            _ => (0, 0),
        }
    }
}

// n charges more.
pub fn charged(st: Counts, n: usize) -> Counts
    requires { st.charges + n ≤ 16777216 }
    ensures { result ≡ counted st n }
{
    Counts {
        charges: st.charges + n,
        ..st
    }
}

impl Journal<'_> {
    // The lent words.
    pub fn lent(&self) -> &[u32]
        ensures { result.now ≡ self.now.work.now }
    {
        &*self.work
    }

    // A word of a record.
    pub fn word(&self, n: usize, j: usize) -> u32
        requires { (n * 12 + 12 ≤ length self.now.work.now) × (j < 12) }
        ensures { result ≡ cell self.now.work.now n j }
    {
        journal_records::word(self.work, n, j)
    }

    // The newest record of a key, if there is one.
    pub fn find(&self, lim: Limits, tag: u32, x: u32, y: u32) -> Option<usize>
        requires rows { lim.rows ≤ 16777216 }
        requires findable { Findable self.now.work.now (lim.rows * 12) lim.slots self.now.counts.charges tag }
        ensures { found_of result ≡ newest self.now.work.now tag x y self.now.counts.charges }
    {
        journal_index::find(
            self.work,
            lim.heads(),
            self.counts.charges,
            Key { tag, x, y },
        )
    }

    // The place of the next record, if there may be one more.
    pub fn room(&self, lim: Limits) -> Result<usize, Refusal>
        ensures { RoomFor lim self.now.counts result }
    {
        if lim.rows <= self.counts.charges {
            return Err(Refusal::TooManyRows);
        }
        Ok(self.counts.charges)
    }

    // A charge and its record; the record's handle.
    pub fn keep(&mut self, lim: Limits, r: Record) -> Result<u32, Refusal>
        requires standing { Standing lim self.old.work.now self.old.counts }
        requires keepable { Keepable self.old.work.now self.old.counts.charges r }
        ensures kept { RecordKept lim self.old.work.now self.old.counts r self.new.work.now (number_given self.new.counts result) }
        ensures still_lent { StillLent self.old self.new }
    {
        let c = self.room(lim)?;
        journal_records::push(self.work, c, r);
        self.counts.charges += 1;
        Ok((c + 1) as u32)
    }

    // A charge and a record of a scope's own lists: an extra root, a route, an association.
    pub fn own(&mut self, lim: Limits, env: Env, r: Record) -> Result<(), Refusal>
        requires standing { Standing lim self.old.work.now self.old.counts }
        requires ownership { Ownership self.old.work.now self.old.counts.charges env r }
        ensures owned { RecordOwned lim self.old.work.now self.old.counts env r self.new.work.now (done_given self.new.counts result) }
        ensures still_lent { StillLent self.old self.new }
    {
        let c = self.room(lim)?;
        journal_lists::append(self.work, env.place, c, r);
        self.counts.charges += 1;
        Ok(())
    }

    // A charge and a scope.
    // Kept: the kind stays a number: a caller may pass any, and an enum would let it pass only three.
    pub fn open(
        &mut self,
        lim: Limits,
        kind: u32,
        document: u32,
        proto: ProtoId,
        index: u32,
        opener: u32,
    ) -> Result<Opened, Refusal>
        requires { Standing lim self.old.work.now self.old.counts }
        ensures opened { ScopeOpened lim self.old.work.now self.old.counts kind document proto.0 index opener self.new.work.now (scope_given self.new.counts result) }
        ensures still_lent { StillLent self.old self.new }
    {
        let c = self.room(lim)?;
        let n = self.counts.scopes;
        journal_records::push(
            self.work,
            c,
            Record::scope(kind, document, proto.0, index, opener, n),
        );
        self.counts.scopes += 1;
        self.counts.charges += 1;
        Ok(Opened {
            number: n,
            place: c,
        })
    }
}
