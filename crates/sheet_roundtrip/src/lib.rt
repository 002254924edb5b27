#![tactic(auto)]
// A sheet and the document that it says determine each other: theorems only.
