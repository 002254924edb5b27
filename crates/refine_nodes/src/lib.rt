#![tactic(auto)]
// The steps that make a node, map a source id to it, look the copy up, and fill it.
// Kept: the journal, the limits and the Env are parameters of their own, as at `refine_records::Journal`; one journal goes with
// the Envs of two scopes in a body.
ghost use Rattle.std.specs.Prelude.{◌+◌, ◌-◌};
ghost use Rattle.journal_records.specs.Records.{Pushed};
ghost use Rattle.journal_reading.specs.WellFormed.{NodeAt};
ghost use Rattle.refine_records.specs.Does.{copy_given};
ghost use Rattle.refine_records.specs.Sound.{Standing, StillLent, EnvAt};
ghost use Rattle.refine_records.specs.Contract.{Mapped, Reserved, CopyLooked, EndOf, contents_of, Fillable};

use ast::NodeId;
use journal_index::Key;
use journal_records;
use journal_records::{Record, words};
use refine_records::{Counts, Env, Journal, Limits, NodeCopy, Refusal};
use sheet_rows::row::NONE;

// A charge and a map entry: the node whose record is before `place`.
pub fn map(
    journal: &mut Journal<'_>,
    lim: Limits,
    env: Env,
    id: NodeId,
    out: NodeCopy,
) -> Result<NodeCopy, Refusal>
    requires standing { Standing lim journal.old.work.now journal.old.counts }
    requires env_at { EnvAt journal.old.work.now journal.old.counts.charges env }
    requires node_at { NodeAt journal.old.work.now journal.old.counts.charges out.id.0 out.place }
    ensures mapped { Mapped lim journal.old.work.now journal.old.counts env.scope id.0 out.id.0 out.place journal.new.work.now (copy_given journal.new.counts result) }
    ensures still_lent { StillLent journal.old journal.new }
{
    let at = journal.room(lim)?;
    journal_index::enter(
        journal.work,
        lim.heads(),
        at,
        Record::map_entry(env.place as u32, id.0, out.id.0, out.place, env.scope),
    );
    journal.counts.charges += 1;
    Ok(out)
}

// A new node, blank, and its map entry: its id, and its record's place with one added.
pub fn reserve(
    journal: &mut Journal<'_>,
    lim: Limits,
    env: Env,
    id: NodeId,
) -> Result<NodeCopy, Refusal>
    requires standing { Standing lim journal.old.work.now journal.old.counts }
    requires env_at { EnvAt journal.old.work.now journal.old.counts.charges env }
    ensures reserved { Reserved lim journal.old.work.now journal.old.counts env id.0 journal.new.work.now (copy_given journal.new.counts result) }
    ensures still_lent { StillLent journal.old journal.new }
{
    let c = journal.counts.charges;
    let new = journal.counts.nodes;
    if lim.nodes <= new as usize {
        return Err(Refusal::TooManyNodes);
    }
    if lim.rows - c < 2 {
        return Err(Refusal::TooManyRows);
    }
    journal_records::push(journal.work, c, Record::reserved(env.scope, id.0));
    let place = (c + 1) as u32;
    journal_index::enter(
        journal.work,
        lim.heads(),
        c + 1,
        Record::map_entry(env.place as u32, id.0, new, place, env.scope),
    );
    journal.counts.nodes += 1;
    journal.counts.charges += 2;
    Ok(NodeCopy {
        id: NodeId(new),
        place,
    })
}

// The map entry of a source id in a scope.
pub fn look(work: &[u32], lim: Limits, counts: Counts, env: Env, id: NodeId) -> Option<usize>
    requires standing { Standing lim work.now counts }
    requires env_at { EnvAt work.now counts.charges env }
    ensures { CopyLooked work.now counts.charges env.scope id.0 result }
{
    journal_index::find(
        work,
        lim.heads(),
        counts.charges,
        Key {
            tag: journal_records::TAG_MAP,
            x: env.place as u32,
            y: id.0,
        },
    )
}

// A route's end: its copy in the scope, or none.
// Kept: NONE for none and no Option: an end is read from a column or a word and written to one, so that each call would turn it
// to an Option and back.
pub fn remap(work: &[u32], lim: Limits, counts: Counts, env: Env, id: NodeId) -> NodeId
    requires standing { Standing lim work.now counts }
    requires env_at { EnvAt work.now counts.charges env }
    ensures { EndOf work.now counts.charges env.scope id.0 result.0 }
{
    if id.0 == NONE {
        return NodeId(NONE);
    }
    let Some(r) = look(work, lim, counts, env, id) else {
        return NodeId(NONE);
    };
    NodeId(journal_records::word(work, r, words::map::COPY))
}

// The contents of the node whose record is before `place`.
// Kept: a parameter for each word of the contents, as `Record::node` has them: a struct would be put together at each of the two
// calls and taken apart here.
pub fn fill(
    work: &mut [u32],
    place: u32,
    ty: u32,
    def: u32,
    origin: u32,
    id: u32,
    fields: u32,
    interfaces: u32,
    statements: u32,
    order: u32,
)
    requires { Fillable work.old place }
    ensures { Pushed work.old work.new (place - 1)
        (contents_of work.old (place - 1) ty def origin id fields interfaces statements order) }
{
    let n = place as usize - 1;
    let scope = journal_records::word(work, n, words::node::SCOPE);
    let source = journal_records::word(work, n, words::node::SOURCE);
    journal_records::push(
        work,
        n,
        Record::node(
            scope, source, ty, def, origin, id, fields, interfaces, statements, order,
        ),
    );
}
