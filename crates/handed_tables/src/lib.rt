#![tactic(auto)]

// Definitions and theorems alone: they stand in specs/.
