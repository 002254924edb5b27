#![tactic(auto)]
// The record of an instance, and the routes of its body.
// Kept: the journal, the limits and the Env are parameters of their own. Only the journal changes: behind one `&mut` each
// contract would have to say that the others stay.
ghost use Rattle.std.specs.Prelude.{◌≡◌};
ghost use Rattle.ast.specs.Choice.{or_else};
ghost use Rattle.sheet_rows.specs.Parse.{optional};
ghost use Rattle.refine_records.specs.Does.{copy_given};
ghost use Rattle.refine_records.specs.Sound.{Standing, StillLent};
ghost use Rattle.expander_bindings.specs.Contract.{Remappable, Remapped, Recordable, Recorded};

use ast::NodeId;
use journal_records;
use journal_records::{Record, words};
use refine_records;
use refine_records::{Env, Journal, Limits, NodeCopy, Refusal};
use sheet_rows::row::NONE;

// The routes of a scope of which no instance is recorded yet: their ends as they are in the scope's map now.
fn remap_routes(journal: &mut Journal<'_>, lim: Limits, env: Env)
    requires standing { Standing lim journal.old.work.now journal.old.counts }
    requires remappable { Remappable journal.old.work.now journal.old.counts.charges env }
    ensures remapped { Remapped lim journal.old.work.now journal.old.counts env.scope journal.new.work.now × (journal.new.counts ≡ journal.old.counts) }
    ensures still_lent { StillLent journal.old journal.new }
{
    // Kept: the loop writes into the records that it walks; an iterator over them would hold the journal borrowed.
    let mut cur = journal.word(env.place, words::scope::ROUTES) as usize;
    while 0 < cur {
        let r = cur - 1;
        let from = refine_nodes::remap(
            journal.lent(),
            lim,
            journal.counts,
            env,
            NodeId(journal.word(r, words::route::FROM)),
        );
        let to = refine_nodes::remap(
            journal.lent(),
            lim,
            journal.counts,
            env,
            NodeId(journal.word(r, words::route::TO)),
        );
        journal_records::set(journal.work, r, words::route::REMAPPED_FROM, from.0);
        journal_records::set(journal.work, r, words::route::REMAPPED_TO, to.0);
        cur = journal.word(r, words::BEFORE) as usize;
    }
}

// A DEF name, or where there is none the old one.
// Kept: words and no Options. One is a row's, the other a record's, and a record takes the result: as Options all three would
// be turned here.
fn named(def: u32, old: u32) -> u32
    ensures { optional result ≡ or_else (optional def) (optional old) }
{
    if def == NONE { old } else { def }
}

// The record of an instance on its root, whose record is before `place`: name and associations are its own, a nested
// one's roots and routes follow.
pub fn record_instance(
    journal: &mut Journal<'_>,
    lim: Limits,
    inner: Env,
    name: u32,
    def: u32,
    out: NodeCopy,
) -> Result<NodeCopy, Refusal>
    requires standing { Standing lim journal.old.work.now journal.old.counts }
    requires recordable { Recordable journal.old.work.now journal.old.counts.charges inner out.id.0 out.place }
    ensures recorded { Recorded lim journal.old.work.now journal.old.counts inner name def out.id.0 out.place journal.new.work.now (copy_given journal.new.counts result) }
    ensures still_lent { StillLent journal.old journal.new }
{
    let c = journal.counts.charges;
    if lim.rows <= c {
        return Err(Refusal::TooManyRows);
    }
    remap_routes(journal, lim, inner);
    let s = inner.place;
    let roots = journal.word(s, words::scope::ROOTS);
    let routes = journal.word(s, words::scope::ROUTES);
    let associations = journal.word(s, words::scope::ASSOCIATIONS);
    let n = out.place as usize - 1;
    let old = journal.word(n, words::node::DEF);
    let nested = journal.word(n, words::node::INSTANCE);
    let scope = inner.scope;
    journal_records::push(
        journal.work,
        c,
        Record::instance(scope, name, roots, routes, associations, nested),
    );
    journal_records::set(journal.work, n, words::node::DEF, named(def, old));
    journal_records::set(journal.work, n, words::node::INSTANCE, (c + 1) as u32);
    journal.counts = refine_records::charged(journal.counts, 1);
    Ok(out)
}
