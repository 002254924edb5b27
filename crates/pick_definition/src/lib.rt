#![tactic(auto)]
// Picks (document 01, Modules: Picks; document 02, wishes 4 and 12): their definition over parsed documents, worked examples, and what is promised of them: definitions and theorems only.
