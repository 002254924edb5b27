#![tactic(auto)]
// Records found by their key: an index over the records, in words behind them.
// Kept: the words with a record's place, as in `journal_records`.
ghost use Rattle.std.specs.Prelude.{◌≡◌, ◌+◌, ◌*◌, ◌-◌, ◌<◌, ◌≤◌, length};
ghost use Rattle.journal_records.specs.Records.{cell, keyed};
ghost use Rattle.journal_records.specs.Logs.{only_below};
ghost use Rattle.journal_index.specs.Index.{number_of, side_of, number_at, hit, newest, found_of, Findable, Enterable, Slotted, HeadRead, LinksWritten, Displaced, Raisable, Raised, RecordEntered};

use journal_records::words::{TAG, key, link};
use journal_records::{Record, TAG_EXTERN, TAG_MAP, TAG_STORED, word};

// How many bits of a key's number are looked at on the way down a tree.
const BITS: usize = 64;

// The key of a record: its tag and its words 1 and 2.
#[derive(Clone, Copy, Debug, PartialEq, Eq)]
pub struct Key {
    pub tag: u32,
    pub x: u32,
    pub y: u32,
}

// The heads of the slots: a word for each, in the words that are lent, from word `at` on.
#[derive(Clone, Copy, Debug, PartialEq, Eq)]
pub struct Heads {
    pub at: usize,
    pub slots: usize,
}

fn is_keyed(tag: u32) -> bool
    ensures { result ≡ keyed tag }
{
    matches!(tag, TAG_MAP | TAG_EXTERN | TAG_STORED)
}

// The words of record `n` that are its key where it is keyed.
fn key_at(work: &[u32], n: usize) -> Key
    requires { n * 12 + 12 ≤ length work.now }
    ensures tag { result.tag ≡ cell work.now n 0 }
    ensures x { result.x ≡ cell work.now n 1 }
    ensures y { result.y ≡ cell work.now n 2 }
{
    Key {
        tag: word(work, n, TAG),
        x: word(work, n, key::FIRST),
        y: word(work, n, key::SECOND),
    }
}

impl Key {
    // A key as one number. Its first word is a place or the number of a document, so that 28 of its bits tell all.
    fn number(self) -> usize
        ensures { result ≡ number_of self.tag self.x self.y }
    {
        (self.x as usize % 268435456 * 16 + self.tag as usize % 16) * 4294967296 + self.y as usize
    }

    // Whether record `n` is below `top` and has the key.
    fn hits(self, work: &[u32], n: usize, top: usize) -> bool
        requires { n * 12 + 12 ≤ length work.now }
        ensures { result ≡ only_below top (hit work.now self.tag self.x self.y) n }
    {
        n < top && key_at(work, n) == self
    }
}

impl Heads {
    // The slot of a key. A map entry's is twice its scope's place, plus its id with two digits exchanged: the slots of a scope
    // stand near each other, and since a copy takes two records, the table is touched in proportion to the records. Scopes
    // nested in each other have places side by side: the exchange sets their ids apart.
    fn slot(self, key: Key) -> usize
        requires { 0 < self.slots }
        ensures { Slotted self.slots key.x key.y result }
    {
        let id = key.y as usize;
        let spread = id % 4 + id / 4 % 128 * 512 + id / 512 % 128 * 4 + id / 65536 * 65536;
        (2 * key.x as usize + spread) % self.slots
    }

    // The head of slot `b`, with one added; 0 where the word is no keyed record of that slot.
    // Kept: 0 for none and no Option, as in `displace` and `raise`: a link is such a word, and is written as it was read.
    fn head(self, work: &[u32], c: usize, b: usize) -> usize
        requires { (c * 12 ≤ length work.now) × (self.at + b < length work.now) × (0 < self.slots) }
        ensures { HeadRead work.now self.at self.slots b c result }
    {
        let x = work[self.at + b] as usize;
        if x >= c {
            return 0;
        }
        let key = key_at(work, x);
        if !is_keyed(key.tag) {
            return 0;
        }
        if self.slot(key) != b {
            return 0;
        }
        x + 1
    }
}

// The number of record `n`.
fn number_at(work: &[u32], n: usize) -> usize
    requires { n * 12 + 12 ≤ length work.now }
    ensures { result ≡ number_at work.now n }
{
    key_at(work, n).number()
}

// The side to which a number goes at depth `d`.
fn side(k: usize, d: usize) -> usize
    ensures { result ≡ side_of d k }
{
    if d >= BITS {
        return 0;
    }
    (k >> d) % 2
}

// The newest record below `top` of a key, if there is one.
// Kept: a loop by hand. It goes down a tree, where the depth and the key tell the side: an iterator of these steps would be used
// here alone.
pub fn find_below(work: &[u32], heads: Heads, c: usize, top: usize, key: Key) -> Option<usize>
    requires findable { Findable work.now heads.at heads.slots c key.tag }
    requires top_le_c { top ≤ c }
    ensures { found_of result ≡ newest work.now key.tag key.x key.y top }
{
    let b = heads.slot(key);
    // usual: the newest of the slot is the one that is looked for, which tells that it is of the slot
    let first = work[heads.at + b] as usize;
    if first < c {
        if key.hits(work, first, top) {
            return Some(first);
        }
    }
    let k = key.number();
    let mut cur = heads.head(work, c, b);
    let mut d = 0;
    while 0 < cur {
        let n = cur - 1;
        if key.hits(work, n, top) {
            return Some(n);
        }
        cur = word(work, n, link::ZERO + side(k, d)) as usize;
        d += 1;
    }
    None
}

// The newest record of a key, if there is one.
pub fn find(work: &[u32], heads: Heads, c: usize, key: Key) -> Option<usize>
    requires { Findable work.now heads.at heads.slots c key.tag }
    ensures { found_of result ≡ newest work.now key.tag key.x key.y c }
{
    find_below(work, heads, c, c, key)
}

// The links of record `p`.
fn set_links(work: &mut [u32], p: usize, zero: u32, one: u32)
    requires { p * 12 + 12 ≤ length work.old }
    ensures { LinksWritten work.old work.new p zero one }
{
    journal_records::set(work, p, link::ZERO, zero);
    journal_records::set(work, p, link::ONE, one);
}

// Record `p` comes to stand above record `m`, at depth `d` where `m` stood; what `m` had on its own side is still to stand
// below it.
fn displace(work: &mut [u32], p: usize, m: usize, d: usize) -> usize
    requires { (p * 12 + 12 ≤ length work.old) × (m < p) × (p < 16777216) }
    ensures { Displaced work.old work.new p m d result }
{
    let zero = word(work, m, link::ZERO);
    let one = word(work, m, link::ONE);
    if side(number_at(work, m), d) == 0 {
        set_links(work, p, (m + 1) as u32, one);
        return zero as usize;
    }
    set_links(work, p, zero, (m + 1) as u32);
    one as usize
}

// Record `place` comes to stand above the tree whose root is `root`, with one added. Each root goes a level down, to its own
// side, and puts the root that stood there down in turn. Below the last bit a tree is a chain, which stays as it is.
fn raise(work: &mut [u32], place: usize, root: usize)
    requires { Raisable work.old place root 0 }
    ensures { Raised work.old work.new place root 0 }
{
    let mut p = place;
    let mut n = root;
    for d in 0..BITS {
        if n == 0 {
            set_links(work, p, 0, 0);
            return;
        }
        let m = n - 1;
        n = displace(work, p, m, d);
        p = m;
    }
    set_links(work, p, n as u32, 0);
}

// A keyed record, at the head of its slot.
pub fn enter(work: &mut [u32], heads: Heads, c: usize, r: Record)
    requires { Enterable work.old heads.at heads.slots c r }
    ensures { RecordEntered work.old work.new heads.at heads.slots c r }
{
    let b = heads.slot(Key {
        tag: r.tag,
        x: r.a,
        y: r.b,
    });
    let q = heads.head(work, c, b);
    journal_records::push(work, c, Record { i: 0, j: 0, ..r });
    raise(work, c, q);
    work[heads.at + b] = c as u32;
}
