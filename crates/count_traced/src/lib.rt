#![tactic(auto)]
// What is counted in the output of an accepted Expand is traced to its ledger: theorems only.
