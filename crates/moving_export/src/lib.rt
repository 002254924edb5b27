#![tactic(auto)]
// Moving totals as C calls them: the answer in lent words.
// Kept: the parameters are those of the C function.
ghost use Rattle.std.specs.Prelude.{◌≡◌};
ghost use Rattle.words_answer.specs.Answer.{exported};
ghost use Rattle.moving_definition.specs.Moving.{moved, said_of};

use moving_definition::MovingError;

// Moving totals. Answer: refusal, totals, largest, place.
pub fn export(counts: &[u64], width: u32, totals: &mut [u64], answer: &mut [u64]) -> u32
    ensures { record { result = result; lent = totals.new; answer = answer.new } ≡ exported 27 4 totals.old answer.old (said_of (moved counts.now «width» totals.old)) }
{
    if answer.len() < 4 {
        return u32::from(MovingError::TooFew);
    }
    match moving_totals::moving(counts, width, totals) {
        Ok(t) => words_answer::put(answer, Ok([t.count as u64, t.largest, t.place as u64])),
        Err(error) => words_answer::put::<3>(answer, Err(u32::from(error))),
    }
}
