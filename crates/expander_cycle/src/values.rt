// A value, with the nodes of its ids.
ghost use Rattle.refine_records.specs.Does.{number_given};
ghost use Rattle.refine_records.specs.Sound.{StillLent};
ghost use Rattle.expander_contracts.specs.Contract.{Here, AtRow, ValueCopied};

use super::elements;
use ast::NodeId;
use journal_records::Record;
use refine_records::{Env, Journal, Limits, Refusal};
use sheet_rows::part::Part;
use sheet_rows::{codes, row};
use sheet_walks::walk;
use source_lookup::Sources;

// The value at a row: its payload, or the handle of its ids' copies.
#[cycle(field_fields_interface_interfaces_copy_body_given_instantiate_statement_values_plain_value)]
pub fn value(
    sources: &Sources<'_>,
    journal: &mut Journal<'_>,
    lim: Limits,
    env: Env,
    row: usize,
    depth: usize,
) -> Result<u32, Refusal>
    requires here { Here sources.now.root.now sources.now.library.now sources.now.dir.now journal.old.work.now lim journal.old.counts env }
    requires at_row { AtRow sources.now.root.now sources.now.library.now sources.now.dir.now env.slot row }
    ensures copied { ValueCopied sources.now.root.now sources.now.library.now sources.now.dir.now journal.old.work.now lim journal.old.counts env row depth journal.new.work.now (number_given journal.new.counts result) }
    ensures still_lent { StillLent journal.old journal.new }
{
    let r = elements::row_of(sources, env.slot, row);
    if r.f != codes::class::NODES {
        return Ok(r.g);
    }
    let sheet = expander_parts::sheet_of(sources, env.slot);
    let mut h: u32 = 0;
    for q in walk::elements(sheet, Part::Ids, row + 1) {
        let i = row::row_at(sheet, q);
        let copied = super::copy(sources, journal, lim, env, NodeId(i.a), depth)?;
        h = journal.keep(lim, Record::id(copied.id.0, h))?;
    }
    Ok(h)
}
