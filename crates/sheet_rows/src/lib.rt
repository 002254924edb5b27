#![tactic(auto)]
// Sheets (document 01, Sheets): the rows of a sheet, and the parts that a document is made of.
pub mod codes;
pub mod part;
pub mod row;
