#![tactic(auto)]
// Steps of an expansion that copy no node: externs, routes, a node's statements and its body order.
// Kept: the sources, the journal, the limits and the Env are parameters of their own. Only the journal changes: behind one
// `&mut` each contract would have to say that the others stay. Sources and limits are no struct: the crates below take one of
// the two, and it would be taken apart for them.
ghost use Rattle.std.specs.Prelude.{◌≡◌, ◌<◌, length};
ghost use Rattle.sheet_rows.specs.Rows.{rows};
ghost use Rattle.journal_records.specs.Records.{tag_statement};
ghost use Rattle.journal_reading.specs.Reading.{map_of};
ghost use Rattle.journal_reading.specs.WellFormed.{HandleAt};
ghost use Rattle.source_directory.specs.Directory.{number_of, Slot};
ghost use Rattle.sheet_lookup.specs.Lookup.{sheet_of};
ghost use Rattle.refine_records.specs.Does.{number_given};
ghost use Rattle.refine_records.specs.Sound.{Standing, StillLent, EnvAt};
ghost use Rattle.expander_parts.specs.Contract.{Lent, Declared, Routed, ExternStated, StatementCopied, StatementsCopied, OrderCopied};

use ast::{ExternProtoId, NodeId};
use expander_marks;
use journal_records;
use journal_records::{Record, words};
use refine_records;
use refine_records::{Env, Journal, Limits, Refusal};
use sheet_lookup::rows;
use sheet_rows::part::Part;
use sheet_rows::row::Row;
use sheet_rows::{codes, row};
use sheet_walks::walk;
use sheet_walks::walk::Found;
use source_directory;
use source_lookup::Sources;

// The sheet of a slot's document.
pub fn sheet_of<'a>(sources: &Sources<'a>, slot: u32) -> &'a [u32]
    requires { slot < length sources.now.dir.now }
    ensures { result.now ≡ sheet_of sources.now.root.now sources.now.library.now (number_of sources.now.dir.now slot) }
{
    let number = source_directory::number(sources.dir, slot);
    rows::select(sources.root, sources.library, number)
}

// An extern's id in the output: declared once per document and id.
pub fn extern_proto(
    sources: &Sources<'_>,
    journal: &mut Journal<'_>,
    lim: Limits,
    slot: u32,
    id: ExternProtoId,
) -> Result<u32, Refusal>
    requires standing { Standing lim journal.old.work.now journal.old.counts }
    requires lent { Lent lim sources.now.root.now sources.now.library.now sources.now.dir.now journal.old.work.now }
    requires slot { Slot sources.now.dir.now slot }
    ensures declared { Declared lim sources.now.root.now sources.now.library.now sources.now.dir.now journal.old.work.now journal.old.counts slot id.0 journal.new.work.now (number_given journal.new.counts result) }
    ensures still_lent { StillLent journal.old journal.new }
{
    let document = source_directory::number(sources.dir, slot);
    let c = journal.counts.charges;
    if let Some(r) = journal.find(lim, journal_records::TAG_EXTERN, document, id.0) {
        return Ok(journal.word(r, words::extern_proto::OUT));
    }
    let Found::At(at) = sources.extern_proto(journal.lent(), slot, id) else {
        return Err(Refusal::DanglingExtern { document, id: id.0 });
    };
    let sheet = rows::select(sources.root, sources.library, document);
    let n = walk::count(sheet, Part::Interfaces, at + 1) + walk::count(sheet, Part::Urls, at + 1);
    if lim.rows - c <= n {
        return Err(Refusal::TooManyRows);
    }
    let out = journal.counts.externs as u32;
    let row = at as u32;
    let mark = sources.mark(journal.lent(), slot, id);
    journal_index::enter(
        journal.work,
        lim.heads(),
        c,
        Record::extern_entry(document, id.0, out, row, slot, mark),
    );
    journal_records::paid(journal.work, c + 1, n);
    journal.counts.externs += 1;
    journal.counts.charges = c + 1 + n;
    Ok(out)
}

// The Route statement of a row, its ends remapped, behind those of a handle.
pub fn route(
    journal: &mut Journal<'_>,
    lim: Limits,
    env: Env,
    r: Row,
    h: u32,
) -> Result<u32, Refusal>
    requires standing { Standing lim journal.old.work.now journal.old.counts }
    requires env_at { EnvAt journal.old.work.now journal.old.counts.charges env }
    requires handle_at { HandleAt journal.old.work.now journal.old.counts.charges tag_statement h }
    ensures routed { Routed lim journal.old.work.now journal.old.counts env.scope r h journal.new.work.now (number_given journal.new.counts result) }
    ensures still_lent { StillLent journal.old journal.new }
{
    let from = refine_nodes::remap(journal.lent(), lim, journal.counts, env, NodeId(r.f));
    let to = refine_nodes::remap(journal.lent(), lim, journal.counts, env, NodeId(r.g));
    journal.keep(
        lim,
        Record::route_statement(r.b, r.c, r.d, r.e, from.0, to.0, h),
    )
}

// An ExternProto statement, behind those of a handle.
pub fn extern_statement(
    sources: &Sources<'_>,
    journal: &mut Journal<'_>,
    lim: Limits,
    slot: u32,
    id: ExternProtoId,
    h: u32,
) -> Result<u32, Refusal>
    requires standing { Standing lim journal.old.work.now journal.old.counts }
    requires lent { Lent lim sources.now.root.now sources.now.library.now sources.now.dir.now journal.old.work.now }
    requires slot { Slot sources.now.dir.now slot }
    requires handle_at { HandleAt journal.old.work.now journal.old.counts.charges tag_statement h }
    ensures stated { ExternStated lim sources.now.root.now sources.now.library.now sources.now.dir.now journal.old.work.now journal.old.counts slot id.0 h journal.new.work.now (number_given journal.new.counts result) }
    ensures still_lent { StillLent journal.old journal.new }
{
    let value = extern_proto(sources, journal, lim, slot, id)?;
    journal.keep(
        lim,
        Record::statement(codes::statement::EXTERN_PROTO, value, h),
    )
}

// A statement of a node, by its row, behind those of a handle: Route and ExternProto are kept.
fn statement(
    sources: &Sources<'_>,
    journal: &mut Journal<'_>,
    lim: Limits,
    env: Env,
    r: Row,
    h: u32,
) -> Result<u32, Refusal>
    requires standing { Standing lim journal.old.work.now journal.old.counts }
    requires env_at { EnvAt journal.old.work.now journal.old.counts.charges env }
    requires lent { Lent lim sources.now.root.now sources.now.library.now sources.now.dir.now journal.old.work.now }
    requires slot { Slot sources.now.dir.now env.slot }
    requires handle_at { HandleAt journal.old.work.now journal.old.counts.charges tag_statement h }
    ensures copied { StatementCopied lim sources.now.root.now sources.now.library.now sources.now.dir.now journal.old.work.now journal.old.counts env r h journal.new.work.now (number_given journal.new.counts result) }
    ensures still_lent { StillLent journal.old journal.new }
{
    match r.a {
        codes::statement::ROUTE => route(journal, lim, env, r, h),
        codes::statement::EXTERN_PROTO => {
            let id = ExternProtoId(r.b);
            extern_statement(sources, journal, lim, env.slot, id, h)
        }
        _ => Ok(h),
    }
}

// The statements of the node at a row: Route and ExternProto only.
pub fn statements(
    sources: &Sources<'_>,
    journal: &mut Journal<'_>,
    lim: Limits,
    env: Env,
    row: usize,
) -> Result<u32, Refusal>
    requires standing { Standing lim journal.old.work.now journal.old.counts }
    requires env_at { EnvAt journal.old.work.now journal.old.counts.charges env }
    requires lent { Lent lim sources.now.root.now sources.now.library.now sources.now.dir.now journal.old.work.now }
    requires slot { Slot sources.now.dir.now env.slot }
    requires row_in_bounds { row < length (rows (sheet_of sources.now.root.now sources.now.library.now (number_of sources.now.dir.now env.slot))) }
    ensures copied { StatementsCopied lim sources.now.root.now sources.now.library.now sources.now.dir.now journal.old.work.now journal.old.counts env row journal.new.work.now (number_given journal.new.counts result) }
    ensures still_lent { StillLent journal.old journal.new }
{
    let sheet = sheet_of(sources, env.slot);
    let mut h: u32 = 0;
    for q in walk::elements(sheet, Part::Statements, row + 1) {
        h = statement(sources, journal, lim, env, row::row_at(sheet, q), h)?;
    }
    Ok(h)
}

// The body order of the node at a row, without what was dropped.
pub fn order(
    sources: &Sources<'_>,
    journal: &mut Journal<'_>,
    lim: Limits,
    env: Env,
    row: usize,
) -> Result<u32, Refusal>
    requires standing { Standing lim journal.old.work.now journal.old.counts }
    requires lent { Lent lim sources.now.root.now sources.now.library.now sources.now.dir.now journal.old.work.now }
    requires slot { Slot sources.now.dir.now env.slot }
    requires env_at { EnvAt journal.old.work.now journal.old.counts.charges env }
    requires row_in_bounds { row < length (rows (sheet_of sources.now.root.now sources.now.library.now (number_of sources.now.dir.now env.slot))) }
    ensures ordered { OrderCopied lim sources.now.root.now sources.now.library.now sources.now.dir.now journal.old.work.now journal.old.counts env row journal.new.work.now (number_given journal.new.counts result) }
    ensures still_lent { StillLent journal.old journal.new }
{
    let sheet = sheet_of(sources, env.slot);
    expander_marks::order(sheet, journal, lim, env, row)
}
