// An instance: the values of its prototype's interfaces, then the prototype's body in a scope of its own.
ghost use Rattle.std.specs.Prelude.{◌≡◌, IfOk};
ghost use Rattle.sheet_rows.specs.Rows.{rows};
ghost use Rattle.sheet_lookup.specs.Lookup.{sheet_of};
ghost use Rattle.sheet_part.specs.Part.{ProtoPart};
ghost use Rattle.source_directory.specs.Directory.{number_of, Slot};
ghost use Rattle.journal_records.specs.Records.{tag_stored};
ghost use Rattle.journal_reading.specs.WellFormed.{HandleAt};
ghost use Rattle.refine_records.specs.Does.{copy_given, number_given};
ghost use Rattle.refine_records.specs.Sound.{StillLent};
ghost use Rattle.expander_contracts.specs.Contract.{Here, AtRow, Instantiated, ValuesStored, ValueStored, InBody, BodyCopied, BodyStatementCopied, root_id, root_place, root_given, Rooted};

use super::{elements, values};
use ast::{ExternProtoId, NodeId};
use journal_records::Record;
use journal_records::codes::scope;
use refine_records::{Env, Journal, Limits, NodeCopy, Refusal};
use sheet_lookup::rows;
use sheet_rows::part::Part;
use sheet_rows::{codes, row};
use sheet_walks::walk;
use sheet_walks::walk::Found;
use source_directory;
use source_lookup::Sources;
use source_lookup::instance::Target;

// An instance of a PROTO: its values, its body in a scope of its own, its record.
#[cycle(field_fields_interface_interfaces_copy_body_given_instantiate_statement_values_plain_value)]
pub fn instantiate(
    sources: &Sources<'_>,
    journal: &mut Journal<'_>,
    lim: Limits,
    env: Env,
    id: NodeId,
    row: usize,
    target: Target,
    depth: usize,
) -> Result<NodeCopy, Refusal>
    requires here { Here sources.now.root.now sources.now.library.now sources.now.dir.now journal.old.work.now lim journal.old.counts env }
    requires at_row { AtRow sources.now.root.now sources.now.library.now sources.now.dir.now env.slot row }
    requires slot { Slot sources.now.dir.now target.slot }
    ensures instantiated { Instantiated sources.now.root.now sources.now.library.now sources.now.dir.now journal.old.work.now lim journal.old.counts env id.0 row target.slot target.proto.0 depth journal.new.work.now (copy_given journal.new.counts result) }
    ensures still_lent { StillLent journal.old journal.new }
{
    let document = source_directory::number(sources.dir, target.slot);
    let Found::At(decl) = sources.proto(journal.lent(), target.slot, target.proto) else {
        return Err(Refusal::DanglingProto {
            document,
            id: target.proto.0,
        });
    };
    let part = sheet_part::proto_at(sources.root, sources.library, document, decl);
    let vs = values(sources, journal, lim, env, row, target, decl, part, depth)?;
    let opened = journal.open(lim, scope::BODY, document, target.proto, 0, env.scope)?;
    let inner = Env {
        scope: opened.number,
        place: opened.place,
        slot: target.slot,
        values: Some(vs),
    };
    let Some(copied) = body(sources, journal, lim, env, id, inner, part, depth)? else {
        return Err(Refusal::NoRoot {
            document,
            proto: target.proto.0,
        });
    };
    let name = elements::row_of(sources, target.slot, decl).a;
    let def = elements::row_of(sources, env.slot, row).b;
    expander_instances::record_instance(journal, lim, inner, name, def, copied)
}

// The values of a PROTO's interfaces, in order; their handle. The part has its rows, the first of them at the row decl.
#[cycle(field_fields_interface_interfaces_copy_body_given_instantiate_statement_values_plain_value)]
pub fn values(
    sources: &Sources<'_>,
    journal: &mut Journal<'_>,
    lim: Limits,
    env: Env,
    row: usize,
    target: Target,
    decl: usize,
    part: &[u32],
    depth: usize,
) -> Result<u32, Refusal>
    requires here { Here sources.now.root.now sources.now.library.now sources.now.dir.now journal.old.work.now lim journal.old.counts env }
    requires at_row { AtRow sources.now.root.now sources.now.library.now sources.now.dir.now env.slot row }
    requires slot { Slot sources.now.dir.now target.slot }
    requires at_row_2 { AtRow sources.now.root.now sources.now.library.now sources.now.dir.now target.slot decl }
    requires proto_part { ProtoPart (sheet_of sources.now.root.now sources.now.library.now (number_of sources.now.dir.now target.slot)) decl part.now }
    ensures stored { ValuesStored sources.now.root.now sources.now.library.now sources.now.dir.now journal.old.work.now lim journal.old.counts env row target.slot target.proto.0 decl depth journal.new.work.now (number_given journal.new.counts result) }
    ensures still_lent { StillLent journal.old journal.new }
{
    let mut h: u32 = 0;
    for (k, q) in walk::elements(part, Part::Interfaces, 1).enumerate() {
        let k = k as u32;
        h = given(
            sources,
            journal,
            lim,
            env,
            row,
            target,
            decl + q,
            k,
            h,
            depth,
        )?;
    }
    Ok(h)
}

// The value of one interface: the last field of its name, what that IS has, or, where neither gives a value, the default.
#[cycle(field_fields_interface_interfaces_copy_body_given_instantiate_statement_values_plain_value)]
pub fn given(
    sources: &Sources<'_>,
    journal: &mut Journal<'_>,
    lim: Limits,
    env: Env,
    row: usize,
    target: Target,
    q: usize,
    k: u32,
    h: u32,
    depth: usize,
) -> Result<u32, Refusal>
    requires here { Here sources.now.root.now sources.now.library.now sources.now.dir.now journal.old.work.now lim journal.old.counts env }
    requires at_row { AtRow sources.now.root.now sources.now.library.now sources.now.dir.now env.slot row }
    requires slot { Slot sources.now.dir.now target.slot }
    requires at_row_2 { AtRow sources.now.root.now sources.now.library.now sources.now.dir.now target.slot q }
    requires handle_at { HandleAt journal.old.work.now journal.old.counts.charges tag_stored h }
    ensures stored { ValueStored sources.now.root.now sources.now.library.now sources.now.dir.now journal.old.work.now lim journal.old.counts env row target.slot target.proto.0 q k h depth journal.new.work.now (number_given journal.new.counts result) }
    ensures still_lent { StillLent journal.old journal.new }
{
    let d = elements::row_of(sources, target.slot, q);
    if let Found::At(f) = sources.last_field(journal.lent(), env.slot, row, d.c) {
        let r = elements::row_of(sources, env.slot, f);
        if r.b != codes::field::IS {
            let value = values::value(sources, journal, lim, env, f, depth)?;
            return refine_values::store(journal, lim, d.c, r.e, r.f, value, h);
        }
        if expander_bindings::has_value(journal.lent(), lim, journal.counts, env, r.c) {
            return expander_bindings::is_given(journal, lim, env, r.c, d.c, h);
        }
    }
    if d.f == codes::class::NONE {
        return Ok(h);
    }
    let opened = journal.open(
        lim,
        scope::DEFAULT,
        source_directory::number(sources.dir, target.slot),
        target.proto,
        k,
        env.scope,
    )?;
    let inner = Env {
        scope: opened.number,
        place: opened.place,
        slot: target.slot,
        values: None,
    };
    let value = values::value(sources, journal, lim, inner, q, depth)?;
    refine_values::store(journal, lim, d.c, d.e, d.f, value, h)
}

// The statements of a PROTO's body, in the part with its rows. The first Node is the root: its copy, and the place of its
// record.
#[cycle(field_fields_interface_interfaces_copy_body_given_instantiate_statement_values_plain_value)]
pub fn body(
    sources: &Sources<'_>,
    journal: &mut Journal<'_>,
    lim: Limits,
    env: Env,
    id: NodeId,
    inner: Env,
    part: &[u32],
    depth: usize,
) -> Result<Option<NodeCopy>, Refusal>
    requires in_body { InBody sources.now.root.now sources.now.library.now sources.now.dir.now journal.old.work.now lim journal.old.counts env inner 0 0 }
    ensures copied { BodyCopied sources.now.root.now sources.now.library.now journal.old.work.now lim journal.old.counts env id.0 inner (rows part.now) depth journal.new.work.now (root_given journal.new.counts result) }
    ensures rooted { IfOk result Rooted }
    ensures still_lent { StillLent journal.old journal.new }
{
    let mut root = None;
    for q in walk::elements(part, Part::Statements, 1) {
        root = statement(sources, journal, lim, env, id, inner, part, q, root, depth)?;
    }
    Ok(root)
}

#[cycle(field_fields_interface_interfaces_copy_body_given_instantiate_statement_values_plain_value)]
pub fn statement(
    sources: &Sources<'_>,
    journal: &mut Journal<'_>,
    lim: Limits,
    env: Env,
    id: NodeId,
    inner: Env,
    part: &[u32],
    row: usize,
    root: Option<NodeCopy>,
    depth: usize,
) -> Result<Option<NodeCopy>, Refusal>
    requires in_body { InBody sources.now.root.now sources.now.library.now sources.now.dir.now journal.old.work.now lim journal.old.counts env inner (root_id root) (root_place root) }
    requires rooted { Rooted root }
    ensures copied { BodyStatementCopied sources.now.root.now sources.now.library.now journal.old.work.now lim journal.old.counts env id.0 inner (rows part.now) row (root_id root) (root_place root) depth journal.new.work.now (root_given journal.new.counts result) }
    ensures rooted { IfOk result Rooted }
    ensures still_lent { StillLent journal.old journal.new }
{
    let r = row::row_at(part, row);
    let scope = inner.scope;
    match r.a {
        codes::statement::NODE => {
            let copied = super::copy(sources, journal, lim, inner, NodeId(r.b), depth)?;
            if root.is_none() {
                let mapped = refine_nodes::map(journal, lim, env, id, copied)?;
                return Ok(Some(mapped));
            }
            journal.own(lim, inner, Record::root(scope, copied.id.0))?;
            Ok(root)
        }
        codes::statement::EXTERN_PROTO => {
            let x = ExternProtoId(r.b);
            expander_parts::extern_proto(sources, journal, lim, inner.slot, x)?;
            Ok(root)
        }
        codes::statement::ROUTE => {
            journal.own(
                lim,
                inner,
                Record::route(scope, r.b, r.c, r.d, r.e, r.f, r.g),
            )?;
            Ok(root)
        }
        _ => Ok(root),
    }
}
