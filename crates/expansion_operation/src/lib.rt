#![tactic(auto)]
// Expand as an operation on words: its definition, its promises, and the proof that they hold: definitions and theorems only.
