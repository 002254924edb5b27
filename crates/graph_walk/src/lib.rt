#![tactic(auto)]
// A walk over all that is reached in an expanded document (document 02, wish 5): each node once, with how often it is
// mentioned, in lent words. Five words for each node: the place of its row in two, how often it is mentioned in two, and,
// one after another, the ids of the nodes reached.
// Kept: the words apart from `Walk`, since the caller reads them after it and lends them for the next document (no heap).
ghost use Rattle.std.specs.Prelude.{◌≡◌, [], ◌∷◌, ◌+◌, ◌*◌, ◌≤◌, ◌<◌, length, drop, get_or};
ghost use Rattle.sheet_rows.specs.Rows.{rows};
ghost use Rattle.graph_walk.specs.Scan.{ids_from, starts_from};
ghost use Rattle.graph_walk.specs.State.{pair_at};
ghost use Rattle.graph_walk.specs.Steps.{with_pair, Mentionable, MentionsNoted, NodesIndexed, Started, WalkReady, Reaches};

use sheet_rows::codes::{kind, statement};
use sheet_rows::row;

// The words of a node, from where those of the first stand; in them, how often it is mentioned, and the id of the node that is
// reached at its place.
pub const NODE_WORDS: usize = 5;

pub const TIMES: usize = 2;

const REACHED: usize = 4;

// The nodes of a document, and the row of kind 11.
#[derive(Clone, Copy, Debug, PartialEq, Eq)]
pub struct Table {
    pub nodes: usize,
    pub top: usize,
}

// The nodes that the top statements lead to, and the row after these.
#[derive(Clone, Copy, Debug, PartialEq, Eq)]
pub struct Starts {
    pub tail: usize,
    pub next: usize,
}

// The nodes of a document, how many of them are reached, and the row after the document.
#[derive(Clone, Copy, Debug, PartialEq, Eq)]
pub struct Walk {
    pub nodes: usize,
    pub tail: usize,
    pub next: usize,
}

// A number in two words.
pub fn pair_at(work: &[u32], at: usize) -> usize
    requires { at + 2 ≤ length work.now }
    ensures { result ≡ pair_at work.now at }
{
    work[at] as usize + 4294967296 * work[at + 1] as usize
}

fn put_pair(work: &mut [u32], at: usize, x: usize)
    requires { at + 2 ≤ length work.old }
    ensures { work.new ≡ with_pair work.old at x }
{
    work[at] = (x % 4294967296) as u32;
    work[at + 1] = (x / 4294967296) as u32;
}

// Gives the nodes from a row on their words, up to row 11.
#[tactic(auto, using(crate::proofs::LoopLaws::index_room))]
fn index(sheet: &[u32], from: usize, work: &mut [u32]) -> Table
    requires { 5 * length (rows sheet.now) ≤ length work.old }
    ensures { NodesIndexed (rows sheet.now) from work.new result.nodes result.top }
{
    let count = sheet.len() / 8;
    // Kept: nodes are counted by hand: the loop is over all rows, and ends at one that is no node.
    let mut nodes = 0;
    for at in from..count {
        let kind = row::row_at(sheet, at).kind;
        if kind == kind::TOP {
            return Table { nodes, top: at };
        }
        if kind != kind::NODE {
            continue;
        }
        put_pair(work, NODE_WORDS * nodes, at);
        put_pair(work, NODE_WORDS * nodes + TIMES, 0);
        nodes += 1;
    }
    Table {
        nodes,
        top: count.max(from),
    }
}

// One mention. A node that is mentioned first is put at the end of those reached; an id that leads nowhere changes nothing.
fn mention(work: &mut [u32], nodes: usize, tail: usize, id: u32) -> usize
    requires { Mentionable nodes tail work.old (id ∷ []) }
    ensures { MentionsNoted nodes tail work.old (id ∷ []) result work.new }
{
    let i = id as usize;
    if nodes <= i {
        return tail;
    }
    let times = pair_at(work, NODE_WORDS * i + TIMES);
    put_pair(work, NODE_WORDS * i + TIMES, times + 1);
    if times != 0 {
        return tail;
    }
    work[NODE_WORDS * tail + REACHED] = id;
    tail + 1
}

// The mentions in a node's values, from the row after its own.
fn visit(sheet: &[u32], from: usize, work: &mut [u32], nodes: usize, tail: usize) -> usize
    requires { Mentionable nodes tail work.old (ids_from (drop from (rows sheet.now))) }
    ensures { MentionsNoted nodes tail work.old (ids_from (drop from (rows sheet.now))) result work.new }
{
    let mut end = tail;
    for at in from..sheet.len() / 8 {
        let r = row::row_at(sheet, at);
        if r.kind == kind::ID {
            end = mention(work, nodes, end, r.a);
            continue;
        }
        if r.kind < kind::FIELD {
            return end;
        }
        if kind::INTERFACE < r.kind {
            return end;
        }
    }
    end
}

// The mentions in top statements, from the row after row 11.
fn start(sheet: &[u32], from: usize, work: &mut [u32], nodes: usize) -> Starts
    requires { Mentionable nodes 0 work.old (starts_from (drop from (rows sheet.now))) }
    ensures { Started (rows sheet.now) from nodes work.old result.tail result.next work.new }
{
    let count = sheet.len() / 8;
    let mut tail = 0;
    for at in from..count {
        let r = row::row_at(sheet, at);
        if r.kind != kind::STATEMENT {
            return Starts { tail, next: at };
        }
        if r.a == statement::NODE {
            tail = mention(work, nodes, tail, r.b);
        }
    }
    Starts {
        tail,
        next: count.max(from),
    }
}

// All that is reached in the document that begins at a row.
pub fn reach(sheet: &[u32], from: usize, work: &mut [u32]) -> Walk
    requires { WalkReady (rows sheet.now) from work.old }
    ensures { Reaches (rows sheet.now) from result.nodes result.tail result.next work.new }
{
    let found = index(sheet, from + 1, work);
    let nodes = found.nodes;
    let started = start(sheet, found.top + 1, work, nodes);
    let mut tail = started.tail;
    let mut k = 0;
    // Kept: each turn may add to those that are reached, so their number is no range's end.
    while k < tail {
        let id = work[NODE_WORDS * k + REACHED] as usize;
        let place = pair_at(work, NODE_WORDS * id);
        tail = visit(sheet, place + 1, work, nodes, tail);
        k += 1;
    }
    Walk {
        nodes,
        tail,
        next: started.next,
    }
}
