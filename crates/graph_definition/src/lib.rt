#![tactic(auto)]
// The scene graph of an expanded document: which nodes are reached, and where they are mentioned. Definitions and theorems only.
