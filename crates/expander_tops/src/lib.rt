#![tactic(auto)]
// The top statements of the root, each over the expander's copy.
// Kept: the sources, the journal, the limits and the Env are parameters of their own, as in expander_parts.
ghost use Rattle.std.specs.Prelude.{◌≡◌, ◌<◌, length};
ghost use Rattle.sheet_rows.specs.Rows.{rows};
ghost use Rattle.journal_records.specs.Records.{tag_statement};
ghost use Rattle.journal_reading.specs.WellFormed.{HandleAt};
ghost use Rattle.refine_records.specs.Does.{number_given};
ghost use Rattle.refine_records.specs.Sound.{StillLent};
ghost use Rattle.expander_contracts.specs.Contract.{Here, StatementAdded, TopsCopied, NothingRecorded, TopStatementsCopied};

use ast::{ExternProtoId, NodeId, ProtoId};
use journal_records;
use journal_records::Record;
use journal_records::codes::scope;
use refine_records::{Counts, Env, Journal, Limits, Refusal};
use sheet_rows::codes::statement;
use sheet_rows::part::Part;
use sheet_rows::row;
use sheet_walks::walk;
use sheet_walks::walk::Found;
use source_lookup::Sources;

// The slot of the root.
const ROOT_SLOT: u32 = 0;

// A top statement: h is the handle of those before it.
fn top_statement(
    sources: &Sources<'_>,
    journal: &mut Journal<'_>,
    lim: Limits,
    env: Env,
    row: usize,
    h: u32,
    depth: usize,
) -> Result<u32, Refusal>
    requires here { Here sources.now.root.now sources.now.library.now sources.now.dir.now journal.old.work.now lim journal.old.counts env }
    requires slot_value { env.slot ≡ 0 }
    requires handle_at { HandleAt journal.old.work.now journal.old.counts.charges tag_statement h }
    ensures added { StatementAdded sources.now.root.now sources.now.library.now journal.old.work.now lim journal.old.counts env row h depth journal.new.work.now (number_given journal.new.counts result) }
    ensures still_lent { StillLent journal.old journal.new }
{
    let r = row::row_at(sources.root, row);
    match r.a {
        statement::NODE => {
            let id = NodeId(r.b);
            let copied = expander_cycle::copy(sources, journal, lim, env, id, depth)?;
            journal.keep(lim, Record::statement(statement::NODE, copied.id.0, h))
        }
        statement::PROTO => Ok(h),
        statement::EXTERN_PROTO => {
            let id = ExternProtoId(r.b);
            expander_parts::extern_statement(sources, journal, lim, ROOT_SLOT, id, h)
        }
        statement::ROUTE => expander_parts::route(journal, lim, env, r, h),
        _ => journal.keep(lim, Record::statement(r.a, r.b, h)),
    }
}

// The top statements, from nothing: three charges, for the document, its top and scope 0, and then each statement.
pub fn top(
    sources: &Sources<'_>,
    journal: &mut Journal<'_>,
    lim: Limits,
    depth: usize,
) -> Result<u32, Refusal>
    requires { NothingRecorded sources.now.root.now sources.now.library.now sources.now.dir.now journal.old.work.now lim }
    ensures copied { TopStatementsCopied sources.now.root.now sources.now.library.now journal.old.work.now lim depth journal.new.work.now (number_given journal.new.counts result) }
    ensures still_lent { StillLent journal.old journal.new }
{
    if lim.rows < 3 {
        return Err(Refusal::TooManyRows);
    }
    journal_records::paid(journal.work, 0, 2);
    journal.counts = Counts {
        nodes: 0,
        scopes: 0,
        externs: 0,
        charges: 2,
    };
    let opened = journal.open(lim, scope::ROOT, 0, ProtoId(0), 0, 0)?;
    let env = Env {
        scope: opened.number,
        place: opened.place,
        slot: ROOT_SLOT,
        values: None,
    };
    let Found::At(t) = walk::seek(sources.root, Part::Tops, 1) else {
        return Ok(0);
    };
    tops(sources, journal, lim, env, t, depth)
}

// The statements behind the row of the top.
fn tops(
    sources: &Sources<'_>,
    journal: &mut Journal<'_>,
    lim: Limits,
    env: Env,
    row: usize,
    depth: usize,
) -> Result<u32, Refusal>
    requires here { Here sources.now.root.now sources.now.library.now sources.now.dir.now journal.old.work.now lim journal.old.counts env }
    requires slot_value { env.slot ≡ 0 }
    requires row_in_bounds { row < length (rows sources.now.root.now) }
    ensures copied { TopsCopied sources.now.root.now sources.now.library.now journal.old.work.now lim journal.old.counts env row depth journal.new.work.now (number_given journal.new.counts result) }
    ensures still_lent { StillLent journal.old journal.new }
{
    let mut h: u32 = 0;
    for q in walk::elements(sources.root, Part::Statements, row + 1) {
        h = top_statement(sources, journal, lim, env, q, h, depth)?;
    }
    Ok(h)
}
