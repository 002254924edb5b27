#![tactic(auto)]
// What sheets of several documents and sheets of protos say: theorems only.
