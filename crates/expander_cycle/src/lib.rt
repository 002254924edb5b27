#![tactic(auto)]
// Expand: copy, instantiate and value with their parts, which call each other: a node here, its fields and interfaces in
// contents, a value in values, an instance in instances. Remaining depth falls at each node entered.
// Kept: the sources, the journal, the limits and the Env are parameters of their own, as in expander_parts.
mod contents;
mod elements;
mod instances;
mod values;

ghost use Rattle.refine_records.specs.Does.{copy_given, number_given};
ghost use Rattle.refine_records.specs.Sound.{StillLent};
ghost use Rattle.expander_contracts.specs.Contract.{Here, AtRow, Copied, PlainNodeCopied, OriginCopied};

use ast::{ExternProtoId, NodeId};
use journal_records::words;
use refine_records::{Env, Journal, Limits, NodeCopy, Refusal};
use sheet_rows::codes;
use sheet_walks::walk::Found;
use source_directory;
use source_lookup::Sources;

// The origin of the node at a row; the extern of an ExternProto origin is declared.
fn origin(
    sources: &Sources<'_>,
    journal: &mut Journal<'_>,
    lim: Limits,
    env: Env,
    row: usize,
) -> Result<u32, Refusal>
    requires { Here sources.now.root.now sources.now.library.now sources.now.dir.now journal.old.work.now lim journal.old.counts env }
    ensures copied { OriginCopied sources.now.root.now sources.now.library.now sources.now.dir.now journal.old.work.now lim journal.old.counts env row journal.new.work.now (number_given journal.new.counts result) }
    ensures still_lent { StillLent journal.old journal.new }
{
    let r = elements::row_of(sources, env.slot, row);
    if r.c == codes::origin::EXTERN_PROTO {
        let id = ExternProtoId(r.d);
        return expander_parts::extern_proto(sources, journal, lim, env.slot, id);
    }
    Ok(r.d)
}

// A node in a scope.
#[cycle(field_fields_interface_interfaces_copy_body_given_instantiate_statement_values_plain_value)]
pub fn copy(
    sources: &Sources<'_>,
    journal: &mut Journal<'_>,
    lim: Limits,
    env: Env,
    id: NodeId,
    depth: usize,
) -> Result<NodeCopy, Refusal>
    requires { Here sources.now.root.now sources.now.library.now sources.now.dir.now journal.old.work.now lim journal.old.counts env }
    ensures copied { Copied sources.now.root.now sources.now.library.now journal.old.work.now lim journal.old.counts env id.0 depth journal.new.work.now (copy_given journal.new.counts result) }
    ensures still_lent { StillLent journal.old journal.new }
{
    if let Some(r) = refine_nodes::look(journal.lent(), lim, journal.counts, env, id) {
        return Ok(NodeCopy {
            id: NodeId(journal.word(r, words::map::COPY)),
            place: journal.word(r, words::map::PAST),
        });
    }
    let Found::At(row) = sources.node(journal.lent(), env.slot, id) else {
        return Err(Refusal::DanglingNode {
            document: source_directory::number(sources.dir, env.slot),
            id: id.0,
        });
    };
    if depth == 0 {
        return Err(Refusal::TooDeep);
    }
    let r = elements::row_of(sources, env.slot, row);
    let x = sources.target(journal.lent(), env.slot, r.c, r.d);
    let Some(target) = x else {
        return plain(sources, journal, lim, env, id, row, depth - 1);
    };
    instances::instantiate(sources, journal, lim, env, id, row, target, depth - 1)
}

// A plain node: reserved and mapped, then its contents, and at the end it gets them.
#[cycle(field_fields_interface_interfaces_copy_body_given_instantiate_statement_values_plain_value)]
fn plain(
    sources: &Sources<'_>,
    journal: &mut Journal<'_>,
    lim: Limits,
    env: Env,
    id: NodeId,
    row: usize,
    depth: usize,
) -> Result<NodeCopy, Refusal>
    requires here { Here sources.now.root.now sources.now.library.now sources.now.dir.now journal.old.work.now lim journal.old.counts env }
    requires at_row { AtRow sources.now.root.now sources.now.library.now sources.now.dir.now env.slot row }
    ensures copied { PlainNodeCopied sources.now.root.now sources.now.library.now sources.now.dir.now journal.old.work.now lim journal.old.counts env id.0 row depth journal.new.work.now (copy_given journal.new.counts result) }
    ensures still_lent { StillLent journal.old journal.new }
{
    let new = refine_nodes::reserve(journal, lim, env, id)?;
    let from = origin(sources, journal, lim, env, row)?;
    let fs = contents::fields(sources, journal, lim, env, new.id, row, depth)?;
    let r = elements::row_of(sources, env.slot, row);
    if elements::bare(sources, env.slot, row + 1) {
        refine_nodes::fill(journal.work, new.place, r.a, r.b, r.c, from, fs, 0, 0, 0);
        return Ok(new);
    }
    let is = contents::interfaces(sources, journal, lim, env, new.id, row, depth)?;
    let ss = expander_parts::statements(sources, journal, lim, env, row)?;
    let os = expander_parts::order(sources, journal, lim, env, row)?;
    refine_nodes::fill(journal.work, new.place, r.a, r.b, r.c, from, fs, is, ss, os);
    Ok(new)
}
