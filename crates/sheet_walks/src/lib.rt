#![tactic(auto)]
// Walks over the parts of a sheet.
pub mod walk;
