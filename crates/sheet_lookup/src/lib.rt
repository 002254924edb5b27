#![tactic(auto)]
// Lookups (document 01, Modules: Lookups): a node, prototype or extern by id answers its row or nothing.
pub mod document;
pub mod numbered;
pub mod rows;
