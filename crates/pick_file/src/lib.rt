#![tactic(auto)]
// The pick within a file: a top-level Proto statement of its document.
// Kept: in `pick_in` an index's words beside a row and its sheet: the index is made only where there is a fragment.
ghost use Rattle.std.specs.Prelude.{◌≡◌, ◌*◌, ◌≤◌, ◌<◌, length, drop};
ghost use Rattle.std.specs.Iterator.{at_most};
ghost use Rattle.std.proofs.Math.ListN.{get_elem?};
ghost use Rattle.sheet_rows.specs.declared.part.Part.TheVariants.{Protos};
ghost use Rattle.sheet_rows.specs.Rows.{rows};
ghost use Rattle.sheet_rows.specs.Parse.{elements, optional};
ghost use Rattle.sheet_walks.specs.Walk.{Nth};
ghost use Rattle.sheet_index.specs.Once.{Part-set};
ghost use Rattle.sheet_lookup.specs.Lookup.{document_at};
ghost use Rattle.pick_definition.specs.PickIn.{is_named, pick_in};
ghost use Rattle.pick_file.specs.File.{Capped, id_of, option_of, protos_from, NextProto, StepsProto, protos_at, FirstNamed};

use ast::ProtoId;
use sheet_index::PartIndex;
use sheet_rows::codes::statement;
use sheet_rows::part::Part;
use sheet_rows::row;
use sheet_walks::walk;
use sheet_walks::walk::Found;

// A top-level Proto statement: the id that it names, and its row.
#[derive(Clone, Copy, Debug, PartialEq, Eq)]
pub struct TopProto {
    pub id: ProtoId,
    pub row: usize,
}

// The prototypes from a row on: how many they are, and an index of them.
#[derive(Clone, Copy)]
pub struct ProtoIndex<'a> {
    pub count: usize,
    pub index: PartIndex<'a>,
    pub ghost of_protos: { index.part ≡ Protos } by { Part-set index.part Protos },
    pub ghost counted: { count ≡ length (elements Protos (drop index.from (rows index.sheet.now))) },
}

// The first Proto statement from a row on.
pub fn next_proto(sheet: &[u32], from: usize) -> Option<TopProto>
    ensures { NextProto (rows sheet.now) from result }
{
    for q in walk::elements(sheet, Part::Statements, from) {
        let r = row::row_at(sheet, q);
        if r.a == statement::PROTO {
            return Some(TopProto {
                id: ProtoId(r.b),
                row: q,
            });
        }
    }
    None
}

// The Proto statements from a row on, one after another.
#[derive(Drop)]
pub struct TopProtos<'a> {
    pub sheet: &'a [u32],
    pub next: usize,
}

pub fn top_protos(sheet: &[u32], from: usize) -> TopProtos<'_>
    ensures sheet { result.sheet.now ≡ sheet.now }
    ensures next { result.next ≡ from }
{
    TopProtos { sheet, next: from }
}

impl<'a> Iterator for TopProtos<'a> {
    type Item = TopProto;

    ghost next_gives = { λ s r t. StepsProto (rows s.sheet.now) s.next r (rows t.sheet.now) t.next };

    ghost remaining = { λ s. at_most (length (protos_from (rows s.sheet.now) s.next)) };

    fn next(&mut self) -> Option<TopProto> {
        let top = next_proto(self.sheet, self.next)?;
        self.next = top.row + 1;
        Some(top)
    }
}

// What a word stands for that is NONE where there is nothing.
pub fn optional(word: u32) -> Option<u32>
    ensures { option_of result ≡ optional word }
{
    if word == row::NONE {
        return None;
    }
    Some(word)
}

// So many prototypes to a slot that the slots reach the last. Any other number would give the same picks.
fn stride(count: usize, room: usize) -> u32
    requires { count ≤ 1048576 }
    ensures { 0 < room → count ≤ result * room }
{
    if count <= room || room == 0 {
        return 1;
    }
    (count / room + 1) as u32
}

impl ProtoIndex<'_> {
    // The row of the prototype of an id. An id past the last is told without a walk.
    pub fn proto_row(&self, id: ProtoId) -> Found
        ensures { Nth Protos (rows self.now.index.sheet.now) self.now.index.from id.0 result }
    {
        if self.count <= id.0 as usize {
            return Found::Nothing;
        }
        self.index.find(id.0)
    }

    // Whether the prototype of an id exists and has a name.
    fn is_named(&self, id: ProtoId, name: u32) -> bool
        ensures { result ≡ is_named name (get_elem? (protos_at (rows self.now.index.sheet.now) self.now.index.from) id.0) }
    {
        let Found::At(q) = self.proto_row(id) else {
            return false;
        };
        row::row_at(self.index.sheet, q).a == name
    }

    // The first Proto statement from a row on whose prototype exists and has a name.
    pub fn first_named(&self, from: usize, name: u32) -> Option<TopProto>
        ensures { FirstNamed (rows self.now.index.sheet.now) self.now.index.from name from result }
    {
        for top in top_protos(self.index.sheet, from) {
            if self.is_named(top.id, name) {
                return Some(top);
            }
        }
        None
    }
}

// The pick in the document that begins at a row, by a walk. With a fragment, the first top-level Proto of that name;
// without, the first top-level Proto, dangling or not.
pub fn pick_in(
    sheet: &[u32],
    document: usize,
    fragment: Option<u32>,
    slots: &mut [u32],
) -> Option<TopProto>
    requires { Capped sheet.now }
    ensures { id_of result ≡ pick_in (document_at (rows sheet.now) document) (option_of fragment) }
{
    if sheet.len() / 8 <= document {
        return None;
    }
    let from = document + 1;
    let Found::At(top) = walk::seek(sheet, Part::Tops, from) else {
        return None;
    };
    let Some(name) = fragment else {
        return next_proto(sheet, top + 1);
    };
    let part = Part::Protos;
    let count = walk::count(sheet, part, from);
    let stride = stride(count, slots.len());
    let filled = sheet_index::index(sheet, part, from, stride, slots);
    let index = PartIndex {
        sheet,
        part,
        from,
        stride,
        slots: &slots[..filled],
    };
    ProtoIndex { count, index }.first_named(top + 1, name)
}
