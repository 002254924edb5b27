#![tactic(auto)]
// The counts of documents one after another, added to a total for each type name (document 02, wish 5).
// Kept: the lent words, with the row that a document begins at beside the sheet. All is lent by the caller (no heap), and a
// struct of it would be taken apart again at `graph_walk::reach`.
ghost use Rattle.std.specs.Prelude.{◌≡◌};
ghost use Rattle.std.proofs.Props.{props};
ghost use Rattle.sheet_rows.specs.Rows.{rows};
ghost use Rattle.count_documents.specs.Steps.{Place, Remembers, weighed, added, Addable, CountReady, DocumentCounted, AllReady, AllCounted};

use graph_walk::{NODE_WORDS, TIMES};
use sheet_rows::row;

// The protocols: every mention counts, or each node that is mentioned counts once.
pub const MENTIONS: u32 = 1;

pub const NODES: u32 = 2;

// How many of the names looked for are remembered.
const SLOTS: usize = 128;

// Which of the names a name is. All are looked at, so that the compiler takes several at a time.
fn place_of(names: &[u32], name: u32) -> Option<usize>
    ensures { Place names.now name result }
{
    let mut found = None;
    for (i, known) in names.iter().enumerate() {
        if *known == name {
            found = Some(i);
        }
    }
    found
}

// A name that was looked for, and its place among those that are counted.
#[derive(Clone, Copy, Debug, PartialEq, Eq)]
pub struct Looked {
    pub name: u32,
    pub place: Option<usize>,
}

// The names that are counted, and what is remembered of those that were looked for: a slot has the name that was looked for
// last of those that fall on it.
#[derive(Drop)]
pub struct Names<'a> {
    pub names: &'a [u32],
    pub looked: [Looked; SLOTS],
    ghost remembers: { Remembers names.now looked } by { Prim.hlevel props },
}

impl<'a> Names<'a> {
    pub fn new(names: &'a [u32]) -> Names<'a>
        ensures { result.names.now ≡ names.now }
    {
        Names {
            names,
            looked: [Looked {
                name: 0,
                place: place_of(names, 0),
            }; SLOTS],
        }
    }

    fn find(&mut self, name: u32) -> Option<usize>
        ensures place { Place self.old.names.now name result }
        ensures names { self.new.names ≡ self.old.names }
    {
        let slot = name as usize % SLOTS;
        let looked = self.looked[slot];
        if looked.name == name {
            return looked.place;
        }
        let place = place_of(self.names, name);
        self.looked[slot] = Looked { name, place };
        place
    }
}

// How much a node counts that is mentioned so often: every mention under protocol 1, else once.
// Kept: a protocol is a number; an enum of the two would ask more of callers, who may hand in any.
fn weight(times: usize, protocol: u32) -> usize
    ensures { result ≡ weighed protocol times }
{
    if protocol == MENTIONS {
        times
    } else {
        times.min(1)
    }
}

fn add(totals: &mut [u64], place: Option<usize>, by: usize)
    requires { Addable totals.old place by }
    ensures { totals.new ≡ added totals.old place by }
{
    if let Some(j) = place {
        totals[j] += by as u64;
    }
}

// Counts the document that begins at a row, node by node in the order of rows. The row after it.
pub fn count_document(
    sheet: &[u32],
    from: usize,
    protocol: u32,
    names: &mut Names<'_>,
    totals: &mut [u64],
    work: &mut [u32],
) -> usize
    requires { CountReady (rows sheet.now) from names.old.names.now totals.old work.old }
    ensures document_counted { DocumentCounted (rows sheet.now) from protocol names.old.names.now totals.old totals.new result }
    ensures names { names.new.names ≡ names.old.names }
{
    let walk = graph_walk::reach(sheet, from, work);
    for id in 0..walk.nodes {
        let by = weight(graph_walk::pair_at(work, NODE_WORDS * id + TIMES), protocol);
        if by == 0 {
            continue;
        }
        let place = graph_walk::pair_at(work, NODE_WORDS * id);
        let name = row::row_at(sheet, place).a;
        add(totals, names.find(name), by);
    }
    walk.next
}

// Counts all documents, each under its protocol.
pub fn count_all(
    sheet: &[u32],
    protocols: &[u32],
    names: &[u32],
    totals: &mut [u64],
    work: &mut [u32],
)
    requires { AllReady (rows sheet.now) protocols.now names.now totals.old work.old }
    ensures { AllCounted (rows sheet.now) protocols.now names.now totals.old totals.new }
{
    let mut counted = Names::new(names);
    let mut from = 0;
    for protocol in protocols {
        from = count_document(sheet, from, *protocol, &mut counted, totals, work);
    }
}
