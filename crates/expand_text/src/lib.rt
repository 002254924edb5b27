#![tactic(auto)]
// What the program reads, and the line and rows that it writes for an answer.
pub mod answer;
pub mod input;
