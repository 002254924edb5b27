#![tactic(auto)]
// The definition of Expand over parsed documents, worked examples, and what holds of every accepted expansion: definitions and theorems only.
