// The flights in which a pod leads back to itself.
ghost use Rattle.std.specs.Prelude.{◌≡◌};
ghost use Rattle.expander_run.specs.Calls.{numbers_of};
ghost use Rattle.test_flights.specs.Flights.{accepted_numbers};

use super::run;
use expander_run::{Expanded, Refusal};
use sheet_rows::row::NONE;

// Instance I, its body one plain node, whose given field holds plain P, whose child is I: from I 3 nodes, 2 body scopes.
pub fn from_the_instance() -> Result<Expanded, Refusal>
    ensures { numbers_of result ≡ accepted_numbers 3 3 22 10 }
{
    let root = [
        1u32, 5, 0, 0, 0, 0, 0, 0, 2, 7, NONE, 1, 0, 0, 0, 0, 3, 1, 0, 0, 0, 14, 2, 1, 9, 1, 0, 0,
        0, 0, 0, 0, 2, 7, NONE, 0, 0, 0, 0, 0, 3, 1, 0, 0, 0, 14, 2, 1, 9, 0, 0, 0, 0, 0, 0, 0, 2,
        7, NONE, 0, 0, 0, 0, 0, 7, 3, 0, 0, 0, 0, 0, 0, 4, 2, 14, 1, NONE, 0, 0, 0, 5, 0, 2, 0, 0,
        0, 0, 0, 11, 0, 0, 0, 0, 0, 0, 0, 5, 0, 0, 0, 0, 0, 0, 0,
    ];
    run::answer(&root, 400, 64)
}

// From P 2 nodes, 1 body scope.
pub fn from_the_plain_node() -> Result<Expanded, Refusal>
    ensures { numbers_of result ≡ accepted_numbers 2 2 15 8 }
{
    let root = [
        1u32, 5, 0, 0, 0, 0, 0, 0, 2, 7, NONE, 1, 0, 0, 0, 0, 3, 1, 0, 0, 0, 14, 2, 1, 9, 1, 0, 0,
        0, 0, 0, 0, 2, 7, NONE, 0, 0, 0, 0, 0, 3, 1, 0, 0, 0, 14, 2, 1, 9, 0, 0, 0, 0, 0, 0, 0, 2,
        7, NONE, 0, 0, 0, 0, 0, 7, 3, 0, 0, 0, 0, 0, 0, 4, 2, 14, 1, NONE, 0, 0, 0, 5, 0, 2, 0, 0,
        0, 0, 0, 11, 0, 0, 0, 0, 0, 0, 0, 5, 0, 1, 0, 0, 0, 0, 0,
    ];
    run::answer(&root, 400, 64)
}
