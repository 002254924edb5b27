#![tactic(auto)]
// The arena: records of twelve words in a lent slice, one to a charge.
// Kept: the words with a record's place. They change between two uses of a place, so that no view of a record can be held.
pub mod codes;
pub mod list;
mod made;
pub mod words;

ghost use Rattle.std.specs.Prelude.{◌≡◌, ◌+◌, ◌*◌, ◌<◌, ◌≤◌, length};
ghost use Rattle.journal_records.specs.Records.{cell, Pushed, SetWord, Paid};

// What a record is, by its tag.
// Kept: numbers with names and no enum: a tag is a word of a record, which may be any number.
pub const TAG_PAID: u32 = 0;

pub const TAG_MAP: u32 = 1;

pub const TAG_EXTERN: u32 = 2;

pub const TAG_NODE: u32 = 3;

pub const TAG_ID: u32 = 4;

pub const TAG_FIELD: u32 = 5;

pub const TAG_INTERFACE: u32 = 6;

pub const TAG_STATEMENT: u32 = 7;

pub const TAG_ORDER: u32 = 8;

pub const TAG_STORED: u32 = 9;

pub const TAG_SCOPE: u32 = 10;

pub const TAG_ROOT: u32 = 11;

pub const TAG_ROUTE: u32 = 12;

pub const TAG_ASSOCIATION: u32 = 13;

pub const TAG_INSTANCE: u32 = 14;

// Word 0 is the tag; module `made` says what the other words of a record are.
#[derive(Clone, Copy, Debug, PartialEq, Eq)]
pub struct Record {
    pub tag: u32,
    pub a: u32,
    pub b: u32,
    pub c: u32,
    pub d: u32,
    pub e: u32,
    pub f: u32,
    pub g: u32,
    pub h: u32,
    pub i: u32,
    pub j: u32,
    pub k: u32,
}

// Writes record `n`.
pub fn push(work: &mut [u32], n: usize, r: Record)
    requires { n * 12 + 12 ≤ length work.old }
    ensures { Pushed work.old work.new n r }
{
    work[n * 12..n * 12 + 12].copy_from_slice(&[
        r.tag, r.a, r.b, r.c, r.d, r.e, r.f, r.g, r.h, r.i, r.j, r.k,
    ]);
}

// Word `j` of record `n`.
pub fn set(work: &mut [u32], n: usize, j: usize, v: u32)
    requires { (n * 12 + 12 ≤ length work.old) × (j < 12) }
    ensures { SetWord work.old work.new n j v }
{
    work[n * 12 + j] = v;
}

pub fn word(work: &[u32], n: usize, j: usize) -> u32
    requires { (n * 12 + 12 ≤ length work.now) × (j < 12) }
    ensures { result ≡ cell work.now n j }
{
    work[n * 12 + j]
}

// Charges that keep nothing.
pub fn paid(work: &mut [u32], n: usize, count: usize)
    requires { (n + count) * 12 ≤ length work.old }
    ensures { Paid work.old work.new n count }
{
    for i in 0..count {
        work[(n + i) * 12] = TAG_PAID;
    }
}
