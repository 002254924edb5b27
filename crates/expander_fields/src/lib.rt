#![tactic(auto)]
// A plain node's fields and interfaces that have an IS.
// Kept: the journal, the limits and the Env are parameters of their own, as in expander_bindings.
ghost use Rattle.std.specs.Prelude.{◌≡◌};
ghost use Rattle.journal_records.specs.Records.{tag_field, tag_interface};
ghost use Rattle.journal_reading.specs.WellFormed.{HandleAt};
ghost use Rattle.refine_records.specs.Does.{number_given};
ghost use Rattle.refine_records.specs.Sound.{Standing, StillLent, EnvAt};
ghost use Rattle.expander_bindings.specs.Contract.{FieldDone, InterfaceDone};

use ast::NodeId;
use expander_bindings::Given;
use journal_records::Record;
use refine_records;
use refine_records::{Env, Journal, Limits, Refusal};
use sheet_rows::codes;
use sheet_rows::row::{NONE, Row};

// A field with an IS, behind the fields of h; the handle of the fields after it.
pub fn is_field(
    journal: &mut Journal<'_>,
    lim: Limits,
    env: Env,
    new: NodeId,
    r: Row,
    h: u32,
) -> Result<u32, Refusal>
    requires standing { Standing lim journal.old.work.now journal.old.counts }
    requires env_at { EnvAt journal.old.work.now journal.old.counts.charges env }
    requires handle_at { HandleAt journal.old.work.now journal.old.counts.charges tag_field h }
    ensures added { FieldDone lim journal.old.work.now journal.old.counts env new.0 r h journal.new.work.now (number_given journal.new.counts result) }
    ensures still_lent { StillLent journal.old journal.new }
{
    expander_bindings::associate(journal, lim, env, r.c, new, r.a)?;
    match expander_bindings::target_value(journal, lim, env, r.c)? {
        Given::Outside => journal.keep(lim, Record::field_with_is(r.a, r.c, r.d, h)),
        Given::Without => Ok(h),
        Given::With { ty, class, payload } => journal.keep(
            lim,
            Record::field(r.a, r.d, ty, class, payload, h),
        ),
    }
}

// An interface with an IS, behind the interfaces of h.
pub fn is_interface(
    journal: &mut Journal<'_>,
    lim: Limits,
    env: Env,
    new: NodeId,
    r: Row,
    h: u32,
) -> Result<u32, Refusal>
    requires standing { Standing lim journal.old.work.now journal.old.counts }
    requires env_at { EnvAt journal.old.work.now journal.old.counts.charges env }
    requires handle_at { HandleAt journal.old.work.now journal.old.counts.charges tag_interface h }
    requires fact { r.d ≡ 4294967295 → ⊥ }
    ensures added { InterfaceDone lim journal.old.work.now journal.old.counts env new.0 r h journal.new.work.now (number_given journal.new.counts result) }
    ensures still_lent { StillLent journal.old journal.new }
{
    expander_bindings::associate(journal, lim, env, r.d, new, r.c)?;
    match expander_bindings::target_value(journal, lim, env, r.d)? {
        Given::Outside => journal.keep(
            lim,
            Record::interface(r.a, r.b, r.c, r.d, 0, codes::class::NONE, 0, h),
        ),
        Given::Without => journal.keep(
            lim,
            Record::interface(r.a, r.b, r.c, NONE, 0, codes::class::NONE, 0, h),
        ),
        Given::With { ty, class, payload } => journal.keep(
            lim,
            Record::interface(r.a, r.b, r.c, NONE, ty, class, payload, h),
        ),
    }
}
