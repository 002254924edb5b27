#![tactic(auto)]
// Count sheet as C calls it: the answer in lent words.
// Kept: the parameters are those of the C function.
ghost use Rattle.std.specs.Prelude.{◌≡◌, length};
ghost use Rattle.words_answer.specs.Answer.{exported};
ghost use Rattle.count_sheet.specs.Sheet.{counted_sheet, said_counted};

use count_sheet::CountError;

// Counts. Answer: refusal, totals.
pub fn export(
    documents: &[u32],
    protocols: &[u32],
    names: &[u32],
    totals: &mut [u64],
    work: &mut [u32],
    answer: &mut [u64],
) -> u32
    ensures { record { result = result; lent = totals.new; answer = answer.new } ≡ exported 17 2 totals.old answer.old (said_counted (counted_sheet documents.now protocols.now names.now (length work.old) totals.old)) }
{
    if answer.len() < 2 {
        return u32::from(CountError::WrongRequest);
    }
    match count_sheet::count(documents, protocols, names, totals, work) {
        Ok(n) => words_answer::put(answer, Ok([n as u64])),
        Err(error) => words_answer::put::<1>(answer, Err(u32::from(error))),
    }
}
