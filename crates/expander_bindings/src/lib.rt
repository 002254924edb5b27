#![tactic(auto)]
// The steps of an expansion about IS bindings: they copy no node.
// Kept: the journal, the limits and the Env are parameters of their own. One journal goes with the Envs of two scopes in a body,
// and the limits stay: behind the journal's `&mut` each contract would have to say so.
ghost use Rattle.journal_records.specs.Records.{tag_stored};
ghost use Rattle.journal_reading.specs.WellFormed.{HandleAt};
ghost use Rattle.refine_records.specs.Does.{done_given, number_given};
ghost use Rattle.refine_records.specs.Sound.{Standing, StillLent, EnvAt};
ghost use Rattle.expander_bindings.specs.Contract.{ClassRead, Associated, TargetValueGiven, HasValue, GivenDone};

use ast::NodeId;
use journal_records;
use journal_records::{Record, words};
use refine_records;
use refine_records::{Counts, Env, Journal, Limits, Refusal};
use sheet_rows::codes;

// An IS adds an association to its scope.
pub fn associate(
    journal: &mut Journal<'_>,
    lim: Limits,
    env: Env,
    interface: u32,
    node: NodeId,
    field: u32,
) -> Result<(), Refusal>
    requires standing { Standing lim journal.old.work.now journal.old.counts }
    requires env_at { EnvAt journal.old.work.now journal.old.counts.charges env }
    ensures associated { Associated lim journal.old.work.now journal.old.counts env interface node.0 field journal.new.work.now (done_given journal.new.counts result) }
    ensures still_lent { StillLent journal.old journal.new }
{
    let scope = env.scope;
    journal.own(
        lim,
        env,
        Record::association(scope, interface, node.0, field),
    )
}

// The class of a value; what is not nodes is a payload.
fn class_of(x: u32) -> u32
    ensures { ClassRead x result }
{
    if x == codes::class::NODES {
        codes::class::NODES
    } else {
        codes::class::PAYLOAD
    }
}

// What an IS target has in a scope: nothing outside a body; in a body no value, or one, cloned: its charges are made.
// Kept: three outcomes, and what becomes of an IS is another in each (it stays, it goes, the value comes in its place); in an
// Option in an Option two of them would both be called None.
#[derive(Clone, Copy, Debug, PartialEq, Eq)]
pub enum Given {
    Outside,
    Without,
    With { ty: u32, class: u32, payload: u32 },
}

pub fn target_value(
    journal: &mut Journal<'_>,
    lim: Limits,
    env: Env,
    target: u32,
) -> Result<Given, Refusal>
    requires standing { Standing lim journal.old.work.now journal.old.counts }
    requires env_at { EnvAt journal.old.work.now journal.old.counts.charges env }
    ensures given { TargetValueGiven lim journal.old.work.now journal.old.counts env target journal.new.work.now journal.new.counts result }
    ensures still_lent { StillLent journal.old journal.new }
{
    let Some(values) = env.values else {
        return Ok(Given::Outside);
    };
    let Some(v) = refine_values::value_of(journal.lent(), lim, journal.counts, values, target)
    else {
        return Ok(Given::Without);
    };
    let ty = journal.word(v, words::value::TYPE);
    let class = class_of(journal.word(v, words::value::CLASS));
    let payload = journal.word(v, words::value::PAYLOAD);
    refine_values::clone(journal, lim, class, payload)?;
    Ok(Given::With { ty, class, payload })
}

// Whether an IS target has a value in a scope.
pub fn has_value(work: &[u32], lim: Limits, counts: Counts, env: Env, target: u32) -> bool
    requires standing { Standing lim work.now counts }
    requires env_at { EnvAt work.now counts.charges env }
    ensures { HasValue work.now env target result }
{
    let Some(values) = env.values else {
        return false;
    };
    refine_values::value_of(work, lim, counts, values, target).is_some()
}

// The value that an IS target has in the instance's scope, stored under an interface's name.
pub fn is_given(
    journal: &mut Journal<'_>,
    lim: Limits,
    env: Env,
    target: u32,
    name: u32,
    h: u32,
) -> Result<u32, Refusal>
    requires standing { Standing lim journal.old.work.now journal.old.counts }
    requires env_at { EnvAt journal.old.work.now journal.old.counts.charges env }
    requires handle_at { HandleAt journal.old.work.now journal.old.counts.charges tag_stored h }
    ensures stored { GivenDone lim journal.old.work.now journal.old.counts env target name h journal.new.work.now (number_given journal.new.counts result) }
    ensures still_lent { StillLent journal.old journal.new }
{
    match target_value(journal, lim, env, target)? {
        Given::Outside | Given::Without => Ok(h),
        Given::With { ty, class, payload } => refine_values::store(
            journal, lim, name, ty, class, payload, h,
        ),
    }
}
