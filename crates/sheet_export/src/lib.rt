#![tactic(auto)]
// The check of a sheet as C calls it: the answer in lent words.
// Kept: 1 and 0 for what fits and what doesn't: C reads them.
ghost use Rattle.std.specs.Prelude.{◌≡◌};
ghost use Rattle.sheet_export.specs.Exports.{check_c};

use sheet_check::BadRow;

// The check of a sheet by a form's number. Answer: 1 where it fits, else 0; the row. The result is the first of these.
pub fn export(words: &[u32], form: u32, answer: &mut [u64]) -> u32
    ensures { record { result = result; answer = answer.new } ≡ check_c words.now form answer.old }
{
    if answer.len() <= 1 {
        return 0;
    }
    match sheet_check::check_numbered(words, form) {
        Ok(()) => {
            answer[..2].copy_from_slice(&[1, 0]);
            1
        }
        Err(BadRow(row)) => {
            answer[..2].copy_from_slice(&[0, row as u64]);
            0
        }
    }
}
