#![tactic(auto)]
// What the functions of the call cycle (expander_cycle, expander_tops) ask and give, and the laws by which each does its piece
// of the definition.
// Kept: `Here`, and `AtRow` of a row, stand in each contract of the cycle. They are of the sheets, the journal's words and an
// Env together, and no one value holds these.
