#![tactic(auto)]
// The ten flights of document 01 ("Flights to prove"), run through the code: each function's contract is its flight's answer.
// Kept: a function to each flight, some alike but for numbers; the numbers are the flight, and stand with their contract.
mod instances;
mod loops;
mod plain;
mod run;

ghost use Rattle.std.specs.Prelude.{◌≡◌};
ghost use Rattle.expander_run.specs.Calls.{numbers_of};
ghost use Rattle.test_flights.specs.Flights.{number_line};

use expander_run::{Expanded, Numbers, Refusal};

// The numbers of an answer, and a 0.
fn line(answer: Result<Expanded, Refusal>) -> [u32; 8]
    ensures { result ≡ number_line (numbers_of answer) }
{
    let n = Numbers::of(answer);
    [
        n.refusal,
        n.first_place,
        n.second_place,
        n.nodes,
        n.scopes,
        n.charges,
        n.rows,
        0,
    ]
}

fn print(rt: &impl Print, answer: Result<Expanded, Refusal>) {
    let row = line(answer);
    let text = text_lines::line_of(&row);
    let _ = rt.write_all(&text);
}

fn main(rt: HostRuntime) {
    print(&rt, plain::no_statements());
    print(&rt, plain::one_node_of_none());
    print(&rt, plain::one_node_no_depth());
    print(&rt, plain::three_nested());
    print(&rt, plain::one_node_twice());
    print(&rt, instances::one_instance_twice());
    print(&rt, instances::two_instances());
    print(&rt, loops::from_the_instance());
    print(&rt, loops::from_the_plain_node());
    print(&rt, instances::body_without_node());
}
