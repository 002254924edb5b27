#![tactic(auto)]
// Out, scopes and ledger from the journal of an accepted expansion: one pass over the records, and then what follows the nodes.
pub mod document;
mod externs;
mod pass;
