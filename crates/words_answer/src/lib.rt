#![tactic(auto)]
// The answer of a C export: the refusal first. Words of 32 bits for document 01, of 64 for document 02.
ghost use Rattle.std.specs.Prelude.{◌≡◌, ◌<◌, ◌≤◌, length, get_or};
ghost use Rattle.words_lent.specs.Words.{over};
ghost use Rattle.words_answer.specs.Answer.{answer_words, refusal_of, words_of};

// Writes the refusal and the numbers after it, which are 0 on a refusal. The result is the refusal.
pub fn put_numbers(answer: &mut [u64], refusal: u32, numbers: &[u64]) -> u32
    requires { length numbers.now < length answer.old }
    ensures { (result ≡ refusal) × (answer.new ≡ over (answer_words refusal numbers.now) answer.old) }
{
    answer[0] = u64::from(refusal);
    if refusal == 0 {
        answer[1..1 + numbers.len()].copy_from_slice(numbers);
    } else {
        answer[1..1 + numbers.len()].fill(0);
    }
    refusal
}

// Writes 0 and the numbers, or the refusal and as many 0s. The result is the refusal, or 0.
pub fn put<const N: usize>(answer: &mut [u64], said: Result<[u64; N], u32>) -> u32
    requires { N < length answer.old }
    ensures { (result ≡ refusal_of said.entry) × (answer.new ≡ over (words_of N said.entry) answer.old) }
{
    match said {
        Ok(numbers) => put_numbers(answer, 0, &numbers),
        Err(refusal) => put_numbers(answer, refusal, &[0; N]),
    }
}

// Writes the words of an answer of document 01. The result is the first of them, the refusal.
pub fn put_words(answer: &mut [u32], words: &[u32]) -> u32
    requires { (0 < length words.now) × (length words.now ≤ length answer.old) }
    ensures { (result ≡ get_or words.now 0 0) × (answer.new ≡ over words.now answer.old) }
{
    answer[..words.len()].copy_from_slice(words);
    words[0]
}
