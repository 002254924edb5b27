#![tactic(auto)]
// Expand as C calls it: the answer in lent words.
// Kept: the parameters of the C interface, one by one.
ghost use Rattle.expander_run.specs.Calls.{call_of};
ghost use Rattle.expander_export.specs.Exports.{SaysC, Demand1C, Demand3C};

use expander_run::{Numbers, Refusal};

// Expand. Answer: refusal, first place, second place, nodes, scopes, charges, rows of out.
pub fn expand<'a>(
    root: &'a [u32],
    library: &'a [u32],
    max_nodes: u32,
    max_depth: u32,
    max_rows: u32,
    out: &mut [u32],
    ledger: &mut [u32],
    scopes: &mut [u32],
    work: &mut [u32],
    answer: &mut [u32],
) -> u32
    ensures says_c { SaysC (call_of root.now library.now max_nodes max_depth max_rows out.old ledger.old scopes.old work.old) answer.old result out.new ledger.new scopes.new answer.new }
    ensures demand1c { Demand1C (call_of root.now library.now max_nodes max_depth max_rows out.old ledger.old scopes.old work.old) answer.old result out.new ledger.new scopes.new answer.new }
    ensures demand3c { Demand3C (call_of root.now library.now max_nodes max_depth max_rows out.old ledger.old scopes.old work.old) result out.new ledger.new scopes.new answer.new }
{
    if answer.len() < 7 {
        return u32::from(Refusal::NoRoom);
    }
    let n = Numbers::of(expander_call::expand(
        root, library, max_nodes, max_depth, max_rows, out, ledger, scopes, work,
    ));
    words_answer::put_words(
        answer,
        &[
            n.refusal,
            n.first_place,
            n.second_place,
            n.nodes,
            n.scopes,
            n.charges,
            n.rows,
        ],
    )
}
