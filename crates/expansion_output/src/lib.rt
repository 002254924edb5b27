#![tactic(auto)]
// The output of every accepted expansion is a document in range and an expanded one, so its rows are a sheet: theorems only.
