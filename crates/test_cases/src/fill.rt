// Patterns in lent words.
ghost use Rattle.std.specs.Prelude.{◌≡◌, ℕ, ◌<◌, length, slice_index};
ghost use Rattle.test_cases.specs.Pattern.{stepped};

// Each word a step more than the one before, wrapped.
pub fn fill(words: &mut [u32], first: u32, step: u32)
    ensures { (k : ℕ) → k < length words.new → slice_index words.new k ≡ stepped first step k }
{
    let mut n = first;
    for word in words.iter_mut() {
        *word = n;
        n = n.wrapping_add(step);
    }
}
