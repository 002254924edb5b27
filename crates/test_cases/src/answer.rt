// The lines that the program writes.
ghost use Rattle.std.specs.Prelude.{◌≡◌};
ghost use Rattle.text_lines.specs.Write.{line as line_bytes};
ghost use Rattle.test_cases.specs.Answer.{answer_numbers, line_numbers, malformed_numbers};

use expander_run::{Expanded, Numbers, Refusal};

// Refusal, two place numbers, nodes, scopes, charges, rows of out, and the sum.
fn numbers(n: Numbers, sum: u32) -> [u32; 8]
    ensures { result ≡ line_numbers n sum }
{
    [
        n.refusal,
        n.first_place,
        n.second_place,
        n.nodes,
        n.scopes,
        n.charges,
        n.rows,
        sum,
    ]
}

// The line of a case whose answer is in numbers.
pub fn line_of(n: Numbers, sum: u32) -> [u8; 89]
    ensures { result ≡ line_bytes (line_numbers n sum) }
{
    let words = numbers(n, sum);
    text_lines::line_of(&words)
}

// The line of a case.
pub fn line(answer: Result<Expanded, Refusal>, sum: u32) -> [u8; 89]
    ensures { result ≡ line_bytes (answer_numbers answer sum) }
{
    line_of(Numbers::of(answer), sum)
}

// The line of a case that is malformed: 99, which is no refusal, and the number of the case.
pub fn malformed(number: u32) -> [u8; 89]
    ensures { result ≡ line_bytes (malformed_numbers number) }
{
    let words = [99, number, 0, 0, 0, 0, 0, 0];
    text_lines::line_of(&words)
}
