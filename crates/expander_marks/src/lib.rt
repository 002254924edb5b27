#![tactic(auto)]
// The filter over a node's body order: which marks are kept, by two positions (document 02, wish 3).
// Kept: the journal, the limits and the Env are parameters of their own, as in expander_bindings; a sheet and a row as in
// sheet_walks. `EnvAt` stands in each contract: it is of the journal's words, which an Env does not hold.
ghost use Rattle.std.specs.Prelude.{◌≡◌, ◌<◌, [], ◌∷◌, length};
ghost use Rattle.sheet_rows.specs.Rows.{rows};
ghost use Rattle.sheet_rows.specs.Parse.{statement_of};
ghost use Rattle.refine_records.specs.Does.{number_given};
ghost use Rattle.refine_records.specs.Sound.{Standing, StillLent, EnvAt, env_of};
ghost use Rattle.expander_marks.specs.Positions.{MarkAt, AtMark, Stepped};
ghost use Rattle.expander_marks.specs.Kept.{kept_statement, field_kept, kept_fields, kept_statements};
ghost use Rattle.expander_marks.specs.Contract.{RunFrom, Fits, reach_after, Knows, Takes, Ordered};

use journal_records::Record;
use refine_records;
use refine_records::{Env, Journal, Limits, Refusal};
use sheet_rows::part::Part;
use sheet_rows::row::Row;
use sheet_rows::{codes, row};
use sheet_walks::walk;

// The positions at a mark: how many Field and how many Statement marks stand before it.
#[derive(Clone, Copy, Debug, PartialEq, Eq)]
struct Positions {
    field: usize,
    statement: usize,
}

// How far a list is looked through: its entries from the position up to `upto` are kept, and the next ones stand from a row on.
#[derive(Clone, Copy, Debug, PartialEq, Eq)]
struct Reach {
    upto: usize,
    row: usize,
}

// Entries that are kept, one after another: how many, and the row where that ends.
#[derive(Clone, Copy, Debug, PartialEq, Eq)]
struct Run {
    count: usize,
    row: usize,
}

// The filter at a mark: the positions, and how far the fields and the statements are looked through.
#[derive(Clone, Copy, Debug, PartialEq, Eq)]
struct Filter {
    positions: Positions,
    fields: Reach,
    statements: Reach,
}

// Whether a field is kept: a value, an IS outside a body, or an IS that has a value in the body.
#[tactic(auto, unfolding(sheet_rows::specs::Parse::field_of))]
fn field_kept(journal: &Journal<'_>, lim: Limits, env: Env, r: Row) -> bool
    requires standing { Standing lim journal.now.work.now journal.now.counts }
    requires env_at { EnvAt journal.now.work.now journal.now.counts.charges env }
    ensures { result ≡ field_kept journal.now.work.now env r }
{
    if r.b != codes::field::IS {
        return true;
    }
    let Some(values) = env.values else {
        return true;
    };
    refine_values::value_of(journal.work, lim, journal.counts, values, r.c).is_some()
}

#[tactic(auto, unfolding(sheet_rows::specs::Parse::statement_of))]
fn statement_kept(r: Row) -> bool
    ensures { result ≡ kept_statement (statement_of (r ∷ [])) }
{
    matches!(
        r.a,
        codes::statement::EXTERN_PROTO | codes::statement::ROUTE
    )
}

// The fields from a row on that are kept, up to the first that is not.
// Kept: `kept_statements` is the same loop over another part, with another test. With the test as a closure the contract would
// have to say which rows it keeps, by a list and its laws: longer than the loop. The count is asked also after the last field,
// where an `enumerate` gives none.
fn kept_fields(sheet: &[u32], journal: &Journal<'_>, lim: Limits, env: Env, from: usize) -> Run
    requires standing { Standing lim journal.now.work.now journal.now.counts }
    requires env_at { EnvAt journal.now.work.now journal.now.counts.charges env }
    ensures { RunFrom (kept_fields (env_of journal.now.work.now env).is_values (rows sheet.now)) (length (rows sheet.now)) from result }
{
    let mut count = 0;
    for q in walk::elements(sheet, Part::Fields, from) {
        if !field_kept(journal, lim, env, row::row_at(sheet, q)) {
            return Run { count, row: q };
        }
        count += 1;
    }
    Run {
        count,
        row: sheet.len() / 8,
    }
}

// The statements likewise.
fn kept_statements(sheet: &[u32], from: usize) -> Run
    ensures { RunFrom (kept_statements (rows sheet.now)) (length (rows sheet.now)) from result }
{
    let mut count = 0;
    for q in walk::elements(sheet, Part::Statements, from) {
        if !statement_kept(row::row_at(sheet, q)) {
            return Run { count, row: q };
        }
        count += 1;
    }
    Run {
        count,
        row: sheet.len() / 8,
    }
}

// How far a list is looked through after a run from a position on. An entry that is not kept is passed: no mark comes to it again.
fn reached(position: usize, run: Run) -> Reach
    requires { Fits position run }
    ensures { result ≡ reach_after position run }
{
    let over = usize::from(run.count == 0);
    Reach {
        upto: position + run.count + over,
        row: run.row + over,
    }
}

// The positions after the mark at a row: 0 or 1 is added to each, by the mark's kind.
fn step(sheet: &[u32], row: usize, at: usize, p: Positions) -> Positions
    requires mark_at { MarkAt (rows sheet.now) at }
    requires at_mark { AtMark (rows sheet.now) row at p.field p.statement }
    ensures { Stepped (rows sheet.now) row at p.field p.statement result.field result.statement }
{
    let mark = row::row_at(sheet, at).a;
    Positions {
        field: p.field + usize::from(mark == codes::mark::FIELD),
        statement: p.statement + usize::from(codes::mark::INTERFACE < mark),
    }
}

impl Filter {
    // Whether the mark at a row is kept: an Interface mark always, another if the entry at its position is. The filter goes on past it.
    fn take(
        &mut self,
        sheet: &[u32],
        journal: &Journal<'_>,
        lim: Limits,
        env: Env,
        row: usize,
        at: usize,
    ) -> bool
        requires standing { Standing lim journal.now.work.now journal.now.counts }
        requires env_at { EnvAt journal.now.work.now journal.now.counts.charges env }
        requires mark_at { MarkAt (rows sheet.now) at }
        requires at_mark { AtMark (rows sheet.now) row at self.old.positions.field self.old.positions.statement }
        requires knows { Knows (env_of journal.now.work.now env).is_values (rows sheet.now) row self.old }
        ensures { Takes (env_of journal.now.work.now env).is_values (rows sheet.now) row at self.old self.new result }
    {
        let p = self.positions;
        self.positions = step(sheet, row, at, p);
        let mark = row::row_at(sheet, at).a;
        let field_known = (mark != codes::mark::FIELD) | (p.field < self.fields.upto);
        let statement_known = (mark < codes::mark::STATEMENT)
            | (p.statement < self.statements.upto);
        if field_known & statement_known {
            return true;
        }
        if mark == codes::mark::FIELD {
            let run = kept_fields(sheet, journal, lim, env, self.fields.row);
            self.fields = reached(p.field, run);
            return 0 < run.count;
        }
        let run = kept_statements(sheet, self.statements.row);
        self.statements = reached(p.statement, run);
        0 < run.count
    }
}

// The body order of the node at a row, without what was dropped.
pub fn order(
    sheet: &[u32],
    journal: &mut Journal<'_>,
    lim: Limits,
    env: Env,
    row: usize,
) -> Result<u32, Refusal>
    requires standing { Standing lim journal.old.work.now journal.old.counts }
    requires env_at { EnvAt journal.old.work.now journal.old.counts.charges env }
    requires row_in_bounds { row < length (rows sheet.now) }
    ensures ordered { Ordered lim (rows sheet.now) journal.old.work.now journal.old.counts env row journal.new.work.now (number_given journal.new.counts result) }
    ensures still_lent { StillLent journal.old journal.new }
{
    let mut h: u32 = 0;
    let unread = Reach {
        upto: 0,
        row: row + 1,
    };
    let mut filter = Filter {
        positions: Positions {
            field: 0,
            statement: 0,
        },
        fields: unread,
        statements: unread,
    };
    for q in walk::elements(sheet, Part::BodyOrder, row + 1) {
        if filter.take(sheet, journal, lim, env, row, q) {
            h = journal.keep(lim, Record::order(row::row_at(sheet, q).a, h))?;
        }
    }
    Ok(h)
}
