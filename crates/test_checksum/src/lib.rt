#![tactic(auto)]
// Sums over words and bytes, in which each number and its place count.
ghost use Rattle.std.specs.Prelude.{◌≡◌};
ghost use Rattle.test_checksum.specs.Sum.{with, checksum_of};

fn with(total: u32, n: u32) -> u32
    ensures { result ≡ with total n }
{
    ((65599 * u64::from(total) + u64::from(n) + 1) % 4294967291) as u32
}

// The sum of some words after that of what came before them.
pub fn of_words(before: u32, words: &[u32]) -> u32
    ensures { result ≡ checksum_of before words.now }
{
    words.iter().fold(before, |total, n| with(total, *n))
}

// The same of bytes.
// Kept: a function over any element would need a bound for its number, and be longer than this fold.
pub fn of_bytes(before: u32, bytes: &[u8]) -> u32
    ensures { result ≡ checksum_of before bytes.now }
{
    bytes
        .iter()
        .fold(before, |total, b| with(total, u32::from(*b)))
}
