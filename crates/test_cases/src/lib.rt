#![tactic(auto)]
// A stored case: its frame, the patterns that stand in its lent slices, and the line that is written for it.
pub mod answer;
pub mod fill;
pub mod frame;
