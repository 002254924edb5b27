#![tactic(auto)]
// A page for the logbook (document 02, wish 13): the definition, its examples and promises.
ghost use Rattle.std.specs.Prelude.{◌≡◌};
ghost use Rattle.pages_definition.specs.Pages.{number_of};

// Why pages are not written: the document or its ledger is malformed, or too few bytes are lent.
#[derive(Clone, Copy, Debug, PartialEq, Eq)]
pub enum PagesError {
    MalformedDocument,
    TooFewBytes,
}

impl From<PagesError> for u32 {
    ghost from_gives = { λ e n. n ≡ number_of e };

    fn from(error: PagesError) -> u32 {
        match error {
            PagesError::MalformedDocument => 28,
            PagesError::TooFewBytes => 29,
        }
    }
}
