#![tactic(auto)]
// What an expansion asks of the two sheets (document 01, Modules: Lookups, Picks, Reached): where a node, prototype or
// extern stands, and which prototype a node is an instance of; in constant time where the lent words have room.
// The documents that an expansion can meet are known by slots: 0 the root, j + 1 the file of base j.
mod group;
pub mod instance;

ghost use Rattle.std.specs.Prelude.{◌≡◌, ◌<◌, length};
ghost use Rattle.ast.specs.Lookups.{node_at, proto_at, extern_proto_at};
ghost use Rattle.sheet_rows.specs.Rows.{rows};
ghost use Rattle.sheet_rows.specs.Parse.{node_of, proto_of, extern_proto_of, document_of, files_of};
ghost use Rattle.sheet_lookup.specs.Lookup.{root_and_files, sheet_of, Located};
ghost use Rattle.pick_definition.specs.Picks.{pick_of, url_taken, prototype_in};
ghost use Rattle.pick_definition.specs.Mark.{mark_of};
ghost use Rattle.source_directory.specs.Directory.{number_of, Slot};
ghost use Rattle.source_lookup.specs.Instance.{origin_from, Targeted};
ghost use Rattle.source_names.specs.Names.{LastField};
ghost use Rattle.source_lookup.specs.Sourced.{Sourced};

use ast::{ExternProtoId, NodeId, ProtoId};
use instance::Target;
use sheet_rows::codes;
use sheet_walks::walk::Found;
use source_directory;
use source_directory::indexes::Group;

// What an expansion reads: the two sheets, and the directory of their documents.
// Kept: the words are lent at each call, since the expansion writes its journal to others of them between two calls.
#[derive(Clone, Copy)]
pub struct Sources<'a> {
    pub root: &'a [u32],
    pub library: &'a [u32],
    pub dir: &'a [u32],
}

impl Sources<'_> {
    // Kept: three names, a line each. Document 01 has Document::node, proto and extern_proto, each of its own id and element.

    // Document::node, of the document of a slot.
    pub fn node(&self, work: &[u32], slot: u32, id: NodeId) -> Found
        requires { Sourced self.now.root.now self.now.library.now self.now.dir.now work.now × Slot self.now.dir.now slot }
        ensures { Located node_of (node_at (root_and_files self.now.root.now self.now.library.now) (number_of self.now.dir.now slot) id.0) (rows (sheet_of self.now.root.now self.now.library.now (number_of self.now.dir.now slot))) result }
    {
        self.locate(work, slot, Group::Nodes, id.0)
    }

    // Document::proto.
    pub fn proto(&self, work: &[u32], slot: u32, id: ProtoId) -> Found
        requires { Sourced self.now.root.now self.now.library.now self.now.dir.now work.now × Slot self.now.dir.now slot }
        ensures { Located proto_of (proto_at (root_and_files self.now.root.now self.now.library.now) (number_of self.now.dir.now slot) id.0) (rows (sheet_of self.now.root.now self.now.library.now (number_of self.now.dir.now slot))) result }
    {
        self.locate(work, slot, Group::Protos, id.0)
    }

    // Document::extern_proto.
    pub fn extern_proto(&self, work: &[u32], slot: u32, id: ExternProtoId) -> Found
        requires { Sourced self.now.root.now self.now.library.now self.now.dir.now work.now × Slot self.now.dir.now slot }
        ensures { Located extern_proto_of (extern_proto_at (root_and_files self.now.root.now self.now.library.now) (number_of self.now.dir.now slot) id.0) (rows (sheet_of self.now.root.now self.now.library.now (number_of self.now.dir.now slot))) result }
    {
        self.locate(work, slot, Group::Externs, id.0)
    }

    // What a node of a slot's document is an instance of, by its origin, as its row's column has it.
    pub fn target(&self, work: &[u32], slot: u32, origin: u32, id: u32) -> Option<Target>
        requires { Sourced self.now.root.now self.now.library.now self.now.dir.now work.now × Slot self.now.dir.now slot }
        ensures { Targeted self.now.dir.now (prototype_in (document_of (rows self.now.root.now)) (files_of (rows self.now.library.now)) (number_of self.now.dir.now slot) (origin_from origin id)) result }
    {
        if origin == codes::origin::PROTO {
            return Some(Target {
                slot,
                proto: ProtoId(id),
            });
        }
        if origin == codes::origin::EXTERN_PROTO {
            let picked = self.picked(work, slot, ExternProtoId(id))?;
            return Some(picked.target);
        }
        None
    }

    // The mark of the url that the pick of an extern of a slot's document took: its index with one added, 0 where there is no pick.
    // Kept: a number and no Option. It is a word of the extern's record, 0 where no url was taken.
    pub fn mark(&self, work: &[u32], slot: u32, id: ExternProtoId) -> u32
        requires { Sourced self.now.root.now self.now.library.now self.now.dir.now work.now × Slot self.now.dir.now slot }
        ensures { result ≡ mark_of (url_taken (pick_of (document_of (rows self.now.root.now)) (files_of (rows self.now.library.now)) (number_of self.now.dir.now slot) id.0)) }
    {
        let Some(picked) = self.picked(work, slot, id) else {
            return 0;
        };
        picked.mark
    }

    // The row of the last field of a name, of the node that stands at a row of a slot's document.
    pub fn last_field(&self, work: &[u32], slot: u32, node: usize, name: u32) -> Found
        requires { Sourced self.now.root.now self.now.library.now self.now.dir.now work.now × Slot self.now.dir.now slot × (node < length (rows (sheet_of self.now.root.now self.now.library.now (number_of self.now.dir.now slot)))) }
        ensures { LastField name (rows (sheet_of self.now.root.now self.now.library.now (number_of self.now.dir.now slot))) node result }
    {
        let number = source_directory::number(self.dir, slot);
        let sheet = sheet_lookup::rows::select(self.root, self.library, number);
        let i = source_names::place_of(self.root, number, node);
        if i < self.dir[source_directory::SPREAD] as usize {
            let at = work[self.dir[source_directory::NAMES] as usize + i] as usize;
            if 0 < at {
                if work[at] as usize == node {
                    let fields = at + 2;
                    let end = fields + work[at + 1] as usize;
                    return source_names::named(sheet, &work[fields..end], node, name);
                }
            }
        }
        source_names::walked(sheet, node, name)
    }
}
