#![tactic(auto)]
// Lent words.
ghost use Rattle.std.specs.Prelude.{◌≤◌, length};
ghost use Rattle.words_lent.specs.Words.{Cleared};

// Kept: `fill` of a range with a law of its own, which three crates use; each would have to prove it again, and that the other
// words stay.
pub fn clear(work: &mut [u32], from: usize, to: usize)
    requires { to ≤ length work.old }
    ensures { Cleared from to to work.old work.new }
{
    if from < to {
        work[from..to].fill(0);
    }
}
