#![tactic(auto)]
// The steps of an expansion over any graph of scopes: definitions and theorems only.
