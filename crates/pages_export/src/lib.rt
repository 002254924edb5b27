#![tactic(auto)]
// Pages as C calls them: the answer in lent words.
// Kept: the parameters are those of the C function.
ghost use Rattle.std.specs.Prelude.{◌≡◌, length};
ghost use Rattle.words_answer.specs.Answer.{exported};
ghost use Rattle.pages_definition.specs.Pages.{paged, said_paged};

use pages_definition::PagesError;

// Pages. Answer: refusal, bytes.
pub fn export(
    document: &[u32],
    ledger: &[u32],
    text: &mut [u8],
    work: &mut [u32],
    answer: &mut [u64],
) -> u32
    ensures { record { result = result; lent = text.new; answer = answer.new } ≡ exported 29 2 text.old answer.old (said_paged (paged document.now ledger.now (length work.old) text.old)) }
{
    if answer.len() < 2 {
        return u32::from(PagesError::TooFewBytes);
    }
    match pages_writer::pages(document, ledger, text, work) {
        Ok(bytes) => words_answer::put(answer, Ok([bytes as u64])),
        Err(error) => words_answer::put::<1>(answer, Err(u32::from(error))),
    }
}
