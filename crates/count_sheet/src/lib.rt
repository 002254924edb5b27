#![tactic(auto)]
// Count sheet under both protocols (document 02, wish 5).
// Kept: the parameters are those of the C function, and are handed on as they came.
ghost use Rattle.std.specs.Prelude.{◌≡◌, ◌≤◌, length};
ghost use Rattle.count_sheet.specs.Sheet.{are_protocols, repeats, number_of, answer_of, counted_sheet};
ghost use Rattle.count_sheet.specs.Steps.{Zeroed};
ghost use Rattle.count_sheet.specs.Promises.{Promises};

use count_documents::{MENTIONS, NODES};
use sheet_check::grammar::Form;
use sheet_rows::part::Part;
use sheet_walks::walk;

// Why documents are not counted: protocols, names or totals that may not be asked for, or documents that are no sheet of as
// many.
#[derive(Clone, Copy, Debug, PartialEq, Eq)]
pub enum CountError {
    WrongRequest,
    MalformedDocuments,
}

impl From<CountError> for u32 {
    ghost from_gives = { λ e n. n ≡ number_of e };

    fn from(error: CountError) -> u32 {
        match error {
            CountError::WrongRequest => 17,
            CountError::MalformedDocuments => 18,
        }
    }
}

// Whether each is a protocol.
fn are_protocols(protocols: &[u32]) -> bool
    ensures { result ≡ are_protocols protocols.now }
{
    protocols.iter().all(|p| *p == MENTIONS || *p == NODES)
}

// Whether a name stands twice.
fn repeat(names: &[u32]) -> bool
    ensures { result ≡ repeats names.now }
{
    for (i, name) in names.iter().enumerate() {
        if names[i + 1..].contains(name) {
            return true;
        }
    }
    false
}

// Sets the first totals to 0.
// Kept: a function of this line alone: with the line in `count` the proof of what is zeroed was tried and did not close.
fn clear(totals: &mut [u64], n: usize)
    requires { n ≤ length totals.old }
    ensures { Zeroed n n totals.old totals.new }
{
    totals[..n].fill(0);
}

// A total for each name, over the documents, each under its protocol, into the lent totals; these stay on a refusal.
pub fn count(
    documents: &[u32],
    protocols: &[u32],
    names: &[u32],
    totals: &mut [u64],
    work: &mut [u32],
) -> Result<usize, CountError>
    ensures totals_after { (answer_of result, totals.new) ≡ counted_sheet documents.now protocols.now names.now (length work.old) totals.old }
    ensures promises { Promises documents.now protocols.now names.now (length work.old) totals.old (answer_of result) totals.new }
{
    if 4096 < protocols.len() {
        return Err(CountError::WrongRequest);
    }
    if !are_protocols(protocols) {
        return Err(CountError::WrongRequest);
    }
    let n = names.len();
    if 64 < n {
        return Err(CountError::WrongRequest);
    }
    if repeat(names) {
        return Err(CountError::WrongRequest);
    }
    if totals.len() < n {
        return Err(CountError::WrongRequest);
    }
    if !sheet_check::is_sheet(documents, Form::Documents) {
        return Err(CountError::MalformedDocuments);
    }
    if work.len() / 16 < documents.len() / 8 {
        return Err(CountError::MalformedDocuments);
    }
    if walk::count(documents, Part::Documents, 0) != protocols.len() {
        return Err(CountError::MalformedDocuments);
    }
    clear(totals, n);
    count_documents::count_all(documents, protocols, names, totals, work);
    Ok(n)
}
