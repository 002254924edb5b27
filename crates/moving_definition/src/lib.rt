#![tactic(auto)]
// Moving totals along the coast (document 02, wish 11): the definition, its examples and promises.
ghost use Rattle.std.specs.Prelude.{◌≡◌};
ghost use Rattle.moving_definition.specs.Moving.{number_of};

// What the totals of a run come to: how many were written, the largest and its first place.
#[derive(Clone, Copy, Debug, PartialEq, Eq)]
pub struct Totals {
    pub count: usize,
    pub largest: u64,
    pub place: usize,
}

// Why there are no totals.
#[derive(Clone, Copy, Debug, PartialEq, Eq)]
pub enum MovingError {
    WidthOutside,
    CountOver,
    TooFew,
}

impl From<MovingError> for u32 {
    ghost from_gives = { λ error number. number ≡ number_of error };

    fn from(error: MovingError) -> u32 {
        match error {
            MovingError::WidthOutside => 25,
            MovingError::CountOver => 26,
            MovingError::TooFew => 27,
        }
    }
}

// The largest total so far and its first place.
#[derive(Clone, Copy, Debug, PartialEq, Eq)]
pub struct Peak {
    pub largest: u64,
    pub place: usize,
}
