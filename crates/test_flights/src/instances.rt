// The flights of instances.
ghost use Rattle.std.specs.Prelude.{◌≡◌};
ghost use Rattle.expander_run.specs.Calls.{numbers_of};
ghost use Rattle.test_flights.specs.Flights.{accepted_numbers, refused_numbers};

use super::run;
use expander_run::{Expanded, Refusal};
use sheet_rows::row::NONE;

// One instance mentioned twice: 1 body scope.
pub fn one_instance_twice() -> Result<Expanded, Refusal>
    ensures { numbers_of result ≡ accepted_numbers 1 2 10 6 }
{
    let root = [
        1u32, 5, 0, 0, 0, 0, 0, 0, 2, 7, NONE, 1, 0, 0, 0, 0, 2, 7, NONE, 0, 0, 0, 0, 0, 7, 3, 0,
        0, 0, 0, 0, 0, 5, 0, 1, 0, 0, 0, 0, 0, 11, 0, 0, 0, 0, 0, 0, 0, 5, 0, 0, 0, 0, 0, 0, 0, 5,
        0, 0, 0, 0, 0, 0, 0,
    ];
    run::answer(&root, 400, 64)
}

// Two instances of it: 2.
pub fn two_instances() -> Result<Expanded, Refusal>
    ensures { numbers_of result ≡ accepted_numbers 2 3 15 8 }
{
    let root = [
        1u32, 5, 0, 0, 0, 0, 0, 0, 2, 7, NONE, 1, 0, 0, 0, 0, 2, 7, NONE, 0, 0, 0, 0, 0, 2, 7,
        NONE, 1, 0, 0, 0, 0, 7, 3, 0, 0, 0, 0, 0, 0, 5, 0, 1, 0, 0, 0, 0, 0, 11, 0, 0, 0, 0, 0, 0,
        0, 5, 0, 0, 0, 0, 0, 0, 0, 5, 0, 2, 0, 0, 0, 0, 0,
    ];
    run::answer(&root, 400, 64)
}

// A body without Node: 7.
pub fn body_without_node() -> Result<Expanded, Refusal>
    ensures { numbers_of result ≡ refused_numbers 7 }
{
    let root = [
        1u32, 5, 0, 0, 0, 0, 0, 0, 2, 7, NONE, 1, 0, 0, 0, 0, 7, 3, 0, 0, 0, 0, 0, 0, 11, 0, 0, 0,
        0, 0, 0, 0, 5, 0, 0, 0, 0, 0, 0, 0,
    ];
    run::answer(&root, 400, 64)
}
