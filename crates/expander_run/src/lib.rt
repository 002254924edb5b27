#![tactic(auto)]
// A call of Expand (document 01): what it promises, the run, and the writing of what it gave.
// Kept: the sheets and the lent slices are parameters one by one, in the order of document 01. A struct of them would be made
// by each caller and taken apart again here, where the sources, the journal and the outputs each take some.
ghost use Rattle.std.specs.Prelude.{◌≡◌};
ghost use Rattle.expander_run.specs.Calls.{numbers_of, told};

pub mod run;

pub use refine_records::Refusal;

// What an accepted call counts.
#[derive(Clone, Copy, Debug, PartialEq, Eq)]
pub struct Expanded {
    pub nodes: u32,
    pub scopes: u32,
    pub charges: u32,
    pub rows: u32,
}

// An answer in numbers, as C reads it: a refusal's counts are 0, an expansion's refusal and places.
// Kept: the seven are listed where they are written. C's answer, the program's line and a case's line have other words after or
// among them; and a Numbers of zeros to take the rest from would be longer than the zeros here.
#[derive(Clone, Copy, Debug, PartialEq, Eq)]
pub struct Numbers {
    pub refusal: u32,
    pub first_place: u32,
    pub second_place: u32,
    pub nodes: u32,
    pub scopes: u32,
    pub charges: u32,
    pub rows: u32,
}

impl Numbers {
    pub fn of(answer: Result<Expanded, Refusal>) -> Numbers
        ensures { told result ≡ numbers_of answer }
    {
        match answer {
            Ok(
                Expanded {
                    nodes,
                    scopes,
                    charges,
                    rows,
                },
            ) => Numbers {
                refusal: 0,
                first_place: 0,
                second_place: 0,
                nodes,
                scopes,
                charges,
                rows,
            },
            Err(e) => {
                let (first_place, second_place) = e.places();
                Numbers {
                    refusal: e.into(),
                    first_place,
                    second_place,
                    nodes: 0,
                    scopes: 0,
                    charges: 0,
                    rows: 0,
                }
            }
        }
    }
}
