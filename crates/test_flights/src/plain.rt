// The flights of plain nodes alone.
ghost use Rattle.std.specs.Prelude.{◌≡◌};
ghost use Rattle.expander_run.specs.Calls.{numbers_of};
ghost use Rattle.test_flights.specs.Flights.{accepted_numbers, refused_numbers};

use super::run;
use expander_run::{Expanded, Refusal};
use sheet_rows::row::NONE;

// No statements: 0 nodes, 1 scope.
pub fn no_statements() -> Result<Expanded, Refusal>
    ensures { numbers_of result ≡ accepted_numbers 0 1 3 2 }
{
    let root = [1u32, 5, 0, 0, 0, 0, 0, 0, 11, 0, 0, 0, 0, 0, 0, 0];
    run::answer(&root, 400, 64)
}

// One plain node, N = 0: 8.
pub fn one_node_of_none() -> Result<Expanded, Refusal>
    ensures { numbers_of result ≡ refused_numbers 8 }
{
    let root = [
        1u32, 5, 0, 0, 0, 0, 0, 0, 2, 7, NONE, 0, 0, 0, 0, 0, 11, 0, 0, 0, 0, 0, 0, 0, 5, 0, 0, 0,
        0, 0, 0, 0,
    ];
    run::answer(&root, 0, 64)
}

// D = 0, N = 0: 9.
pub fn one_node_no_depth() -> Result<Expanded, Refusal>
    ensures { numbers_of result ≡ refused_numbers 9 }
{
    let root = [
        1u32, 5, 0, 0, 0, 0, 0, 0, 2, 7, NONE, 0, 0, 0, 0, 0, 11, 0, 0, 0, 0, 0, 0, 0, 5, 0, 0, 0,
        0, 0, 0, 0,
    ];
    run::answer(&root, 0, 0)
}

// Three nested, D = 2: 9.
pub fn three_nested() -> Result<Expanded, Refusal>
    ensures { numbers_of result ≡ refused_numbers 9 }
{
    let root = [
        1u32, 5, 0, 0, 0, 0, 0, 0, 2, 7, NONE, 0, 0, 0, 0, 0, 3, 1, 0, 0, 0, 14, 2, 1, 9, 1, 0, 0,
        0, 0, 0, 0, 2, 7, NONE, 0, 0, 0, 0, 0, 3, 1, 0, 0, 0, 14, 2, 1, 9, 2, 0, 0, 0, 0, 0, 0, 2,
        7, NONE, 0, 0, 0, 0, 0, 11, 0, 0, 0, 0, 0, 0, 0, 5, 0, 0, 0, 0, 0, 0, 0,
    ];
    run::answer(&root, 400, 2)
}

// One node mentioned twice: 1 node.
pub fn one_node_twice() -> Result<Expanded, Refusal>
    ensures { numbers_of result ≡ accepted_numbers 1 1 7 5 }
{
    let root = [
        1u32, 5, 0, 0, 0, 0, 0, 0, 2, 7, NONE, 0, 0, 0, 0, 0, 11, 0, 0, 0, 0, 0, 0, 0, 5, 0, 0, 0,
        0, 0, 0, 0, 5, 0, 0, 0, 0, 0, 0, 0,
    ];
    run::answer(&root, 400, 64)
}
