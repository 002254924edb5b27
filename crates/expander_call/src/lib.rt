#![tactic(auto)]
// Expand whole (document 01): what is refused before the first step, then the run.
// Kept: the parameters are those of document 01, one by one and in its order, as C passes them.
ghost use Rattle.std.specs.Prelude.{◌≡◌};
ghost use Rattle.expansion_operation.specs.Operation.{wrong_length};
ghost use Rattle.expander_run.specs.Calls.{limits_of, call_of, lacks_room, AsDefined, Demand1, Demand3};

use expander_run::{Expanded, Refusal, run};
use sheet_check::BadRow;
use sheet_check::grammar::Form;

// The numbers of the sheets in refusal 3.
const ROOT: u32 = 0;

const LIBRARY: u32 = 1;

// Refusal 1: a limit over its cap, or a slice too short for the limits.
fn lacks_room(
    max_nodes: u32,
    max_depth: u32,
    max_rows: u32,
    out: usize,
    ledger: usize,
    scopes: usize,
    work: usize,
) -> bool
    ensures { result ≡ lacks_room (limits_of max_nodes max_depth max_rows) out ledger scopes work }
{
    if max_nodes > 4000000 {
        return true;
    }
    if max_depth > 512 {
        return true;
    }
    if max_rows > 16777216 {
        return true;
    }
    if out < 8 * (max_rows as usize) {
        return true;
    }
    if ledger < 3 * (max_nodes as usize) {
        return true;
    }
    if scopes < 5 * (max_rows as usize) {
        return true;
    }
    work < 16 * (max_rows as usize) + 64 * (max_depth as usize + 1)
}

// Refusal 2: a sheet that is no multiple of 8 words, or over 1,048,576 rows.
fn wrong_length(sheet: &[u32]) -> bool
    ensures { result ≡ wrong_length sheet.now }
{
    if sheet.len() % 8 != 0 {
        return true;
    }
    sheet.len() / 8 > 1048576
}

// Expands the prototypes of a scene. Accepted, out has the rows, ledger the triples and scopes the entries.
pub fn expand<'a>(
    root: &'a [u32],
    library: &'a [u32],
    max_nodes: u32,
    max_depth: u32,
    max_rows: u32,
    out: &mut [u32],
    ledger: &mut [u32],
    scopes: &mut [u32],
    work: &mut [u32],
) -> Result<Expanded, Refusal>
    ensures as_defined { AsDefined (call_of root.now library.now max_nodes max_depth max_rows out.old ledger.old scopes.old work.old) result out.new ledger.new scopes.new }
    ensures demand1 { Demand1 (call_of root.now library.now max_nodes max_depth max_rows out.old ledger.old scopes.old work.old) result out.new ledger.new scopes.new }
    ensures demand3 { Demand3 (call_of root.now library.now max_nodes max_depth max_rows out.old ledger.old scopes.old work.old) result out.new ledger.new scopes.new }
{
    if lacks_room(
        max_nodes,
        max_depth,
        max_rows,
        out.len(),
        ledger.len(),
        scopes.len(),
        work.len(),
    ) {
        return Err(Refusal::NoRoom);
    }
    if wrong_length(root) {
        return Err(Refusal::WrongLength);
    }
    if wrong_length(library) {
        return Err(Refusal::WrongLength);
    }
    if let Err(BadRow(row)) = sheet_check::check(root, Form::Root) {
        return Err(Refusal::Malformed {
            sheet: ROOT,
            row: row as u32,
        });
    }
    if let Err(BadRow(row)) = sheet_check::check(library, Form::Library) {
        return Err(Refusal::Malformed {
            sheet: LIBRARY,
            row: row as u32,
        });
    }
    run::run(
        root,
        library,
        max_nodes as usize,
        max_depth as usize,
        max_rows as usize,
        out,
        ledger,
        scopes,
        work,
    )
}
