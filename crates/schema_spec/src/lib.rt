#![tactic(auto)]

// Definitions alone: they stand in specs/.
