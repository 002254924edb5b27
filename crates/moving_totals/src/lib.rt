#![tactic(auto)]
// Moving totals along the coast (document 02, wish 11): the code.
// Kept: the width beside the counts: C gives it as a number. In `slide` `n` beside the totals: it counts the windows too, and
// the totals behind them stay.
ghost use Rattle.std.specs.Prelude.{◌≡◌, length, take};
ghost use Rattle.moving_definition.specs.Moving.{sum, any_over, answer_of, moved};
ghost use Rattle.moving_definition.specs.Slides.{Summable, Slidable, Slid};
ghost use Rattle.moving_definition.specs.Promises.{Promises};

use moving_definition::{MovingError, Peak, Totals};

// Whether a count is over 4,294,967,295.
fn any_over(counts: &[u64]) -> bool
    ensures { result ≡ any_over counts.now }
{
    counts.iter().any(|count| 4294967295 < *count)
}

// The sum of the first `n` counts.
fn sum_first(counts: &[u64], n: usize) -> u64
    requires { Summable counts.now n }
    ensures { result ≡ sum (take n counts.now) }
{
    counts[..n].iter().sum()
}

// Writes `n` totals: the window moves by adding one count and taking one away. `before` is the width less one.
fn slide(counts: &[u64], before: usize, n: usize, totals: &mut [u64]) -> Peak
    requires { Slidable counts.now before n (length totals.old) }
    ensures { Slid counts.now before n totals.old totals.new result }
{
    let mut rest = sum_first(counts, before);
    let mut peak = Peak {
        largest: 0,
        place: 0,
    };
    for p in 0..n {
        let total = rest + counts[p + before];
        totals[p] = total;
        rest = total - counts[p];
        if peak.largest < total {
            peak = Peak {
                largest: total,
                place: p,
            };
        }
    }
    peak
}

// For each leg from the `width`-th on the total of the last `width` counts, into the lent totals; they stay on a refusal.
pub fn moving(counts: &[u64], width: u32, totals: &mut [u64]) -> Result<Totals, MovingError>
    ensures totals_after { (answer_of result, totals.new) ≡ moved counts.now «width» totals.old }
    ensures promises { Promises counts.now «width» totals.old (answer_of result) totals.new }
{
    if width < 1 {
        return Err(MovingError::WidthOutside);
    }
    if 64 < width {
        return Err(MovingError::WidthOutside);
    }
    if any_over(counts) {
        return Err(MovingError::CountOver);
    }
    let before = (width - 1) as usize;
    // Kept: zeros and no Option where there are no totals: C reads them.
    if counts.len() <= before {
        return Ok(Totals {
            count: 0,
            largest: 0,
            place: 0,
        });
    }
    let n = counts.len() - before;
    if totals.len() < n {
        return Err(MovingError::TooFew);
    }
    let peak = slide(counts, before, n, totals);
    Ok(Totals {
        count: n,
        largest: peak.largest,
        place: peak.place,
    })
}
