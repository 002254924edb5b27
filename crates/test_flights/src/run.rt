// A flight run through the code.
ghost use Rattle.std.specs.Prelude.{◌≡◌};
ghost use Rattle.expander_run.specs.Calls.{numbers_of};
ghost use Rattle.test_flights.specs.Flights.{flight_answer};

use expander_run::{Expanded, Refusal};

// Expand on some rows, with no library and 400 charges.
// Kept: the program `expand` makes such a call with its own limits. A function of both would be a library crate for one call.
pub fn answer<'a>(root: &'a [u32], nodes: u32, depth: u32) -> Result<Expanded, Refusal>
    ensures { numbers_of result ≡ flight_answer root.now nodes depth }
{
    let library = [0u32; 0];
    let mut out = [0u32; 3200];
    let mut ledger = [0u32; 1200];
    let mut scopes = [0u32; 2000];
    let mut work = [0u32; 10560];
    expander_call::expand(
        root,
        &library,
        nodes,
        depth,
        400,
        &mut out,
        &mut ledger,
        &mut scopes,
        &mut work,
    )
}
