// The fields and interfaces of a plain node.
ghost use Rattle.journal_records.specs.Records.{tag_field, tag_interface};
ghost use Rattle.journal_records.specs.Made.{field_record};
ghost use Rattle.journal_reading.specs.WellFormed.{HandleAt};
ghost use Rattle.refine_records.specs.Does.{number_given};
ghost use Rattle.refine_records.specs.Sound.{Standing, StillLent};
ghost use Rattle.refine_records.specs.Contract.{Keepable, RecordKept};
ghost use Rattle.expander_contracts.specs.Contract.{Here, AtRow, FieldsCopied, FieldAdded, InterfacesCopied, InterfaceAdded};

use super::{elements, values};
use ast::NodeId;
use journal_records::Record;
use refine_records::{Env, Journal, Limits, Refusal};
use sheet_rows::codes;
use sheet_rows::part::Part;
use sheet_rows::row::{NONE, Row};
use sheet_walks::walk;
use sheet_walks::walk::Found;
use source_lookup::Sources;

// The fields of the node at a row.
// Kept: `interfaces` has the same loop. In a cycle of calls the step cannot be a parameter, and a trait with `fields` and
// `interfaces` as its two kinds is longer than both.
#[cycle(field_fields_interface_interfaces_copy_body_given_instantiate_statement_values_plain_value)]
pub fn fields(
    sources: &Sources<'_>,
    journal: &mut Journal<'_>,
    lim: Limits,
    env: Env,
    new: NodeId,
    row: usize,
    depth: usize,
) -> Result<u32, Refusal>
    requires here { Here sources.now.root.now sources.now.library.now sources.now.dir.now journal.old.work.now lim journal.old.counts env }
    requires at_row { AtRow sources.now.root.now sources.now.library.now sources.now.dir.now env.slot row }
    ensures copied { FieldsCopied sources.now.root.now sources.now.library.now sources.now.dir.now journal.old.work.now lim journal.old.counts env new.0 row depth journal.new.work.now (number_given journal.new.counts result) }
    ensures still_lent { StillLent journal.old journal.new }
{
    let sheet = expander_parts::sheet_of(sources, env.slot);
    let mut h: u32 = 0;
    for q in walk::elements(sheet, Part::Fields, row + 1) {
        h = field(sources, journal, lim, env, new, q, h, depth)?;
    }
    Ok(h)
}

// The field of a row with a value, behind those of a handle.
pub fn add_field(
    journal: &mut Journal<'_>,
    lim: Limits,
    r: Row,
    v: u32,
    h: u32,
) -> Result<u32, Refusal>
    requires standing { Standing lim journal.old.work.now journal.old.counts }
    requires keepable { Keepable journal.old.work.now journal.old.counts.charges (field_record r.a 0 0 r.d r.e r.f v h) }
    ensures kept { RecordKept lim journal.old.work.now journal.old.counts (field_record r.a 0 0 r.d r.e r.f v h) journal.new.work.now (number_given journal.new.counts result) }
    ensures still_lent { StillLent journal.old journal.new }
{
    journal.keep(lim, Record::field(r.a, r.d, r.e, r.f, v, h))
}

#[cycle(field_fields_interface_interfaces_copy_body_given_instantiate_statement_values_plain_value)]
pub fn field(
    sources: &Sources<'_>,
    journal: &mut Journal<'_>,
    lim: Limits,
    env: Env,
    new: NodeId,
    row: usize,
    h: u32,
    depth: usize,
) -> Result<u32, Refusal>
    requires here { Here sources.now.root.now sources.now.library.now sources.now.dir.now journal.old.work.now lim journal.old.counts env }
    requires at_row { AtRow sources.now.root.now sources.now.library.now sources.now.dir.now env.slot row }
    requires handle_at { HandleAt journal.old.work.now journal.old.counts.charges tag_field h }
    ensures added { FieldAdded sources.now.root.now sources.now.library.now sources.now.dir.now journal.old.work.now lim journal.old.counts env new.0 row h depth journal.new.work.now (number_given journal.new.counts result) }
    ensures still_lent { StillLent journal.old journal.new }
{
    let r = elements::row_of(sources, env.slot, row);
    if r.b == codes::field::IS {
        return expander_fields::is_field(journal, lim, env, new, r, h);
    }
    if r.f != codes::class::NODES {
        return add_field(journal, lim, r, r.g, h);
    }
    let sheet = expander_parts::sheet_of(sources, env.slot);
    let Found::At(_) = walk::seek(sheet, Part::Ids, row + 1) else {
        return add_field(journal, lim, r, 0, h);
    };
    let value = values::value(sources, journal, lim, env, row, depth)?;
    add_field(journal, lim, r, value, h)
}

// The interfaces of the node at a row.
#[cycle(field_fields_interface_interfaces_copy_body_given_instantiate_statement_values_plain_value)]
pub fn interfaces(
    sources: &Sources<'_>,
    journal: &mut Journal<'_>,
    lim: Limits,
    env: Env,
    new: NodeId,
    row: usize,
    depth: usize,
) -> Result<u32, Refusal>
    requires here { Here sources.now.root.now sources.now.library.now sources.now.dir.now journal.old.work.now lim journal.old.counts env }
    requires at_row { AtRow sources.now.root.now sources.now.library.now sources.now.dir.now env.slot row }
    ensures copied { InterfacesCopied sources.now.root.now sources.now.library.now sources.now.dir.now journal.old.work.now lim journal.old.counts env new.0 row depth journal.new.work.now (number_given journal.new.counts result) }
    ensures still_lent { StillLent journal.old journal.new }
{
    let sheet = expander_parts::sheet_of(sources, env.slot);
    let mut h: u32 = 0;
    for q in walk::elements(sheet, Part::Interfaces, row + 1) {
        h = interface(sources, journal, lim, env, new, q, h, depth)?;
    }
    Ok(h)
}

#[cycle(field_fields_interface_interfaces_copy_body_given_instantiate_statement_values_plain_value)]
pub fn interface(
    sources: &Sources<'_>,
    journal: &mut Journal<'_>,
    lim: Limits,
    env: Env,
    new: NodeId,
    row: usize,
    h: u32,
    depth: usize,
) -> Result<u32, Refusal>
    requires here { Here sources.now.root.now sources.now.library.now sources.now.dir.now journal.old.work.now lim journal.old.counts env }
    requires at_row { AtRow sources.now.root.now sources.now.library.now sources.now.dir.now env.slot row }
    requires handle_at { HandleAt journal.old.work.now journal.old.counts.charges tag_interface h }
    ensures added { InterfaceAdded sources.now.root.now sources.now.library.now sources.now.dir.now journal.old.work.now lim journal.old.counts env new.0 row h depth journal.new.work.now (number_given journal.new.counts result) }
    ensures still_lent { StillLent journal.old journal.new }
{
    let r = elements::row_of(sources, env.slot, row);
    if r.d != NONE {
        return expander_fields::is_interface(journal, lim, env, new, r, h);
    }
    let value = values::value(sources, journal, lim, env, row, depth)?;
    journal.keep(
        lim,
        Record::interface(r.a, r.b, r.c, NONE, r.e, r.f, value, h),
    )
}
