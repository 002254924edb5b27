#![tactic(auto)]
// How the records of the journal are read as parts of the expansion's state: definitions and laws.
