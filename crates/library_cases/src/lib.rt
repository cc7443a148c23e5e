#![tactic(auto)]

// Cases alone: they stand in specs/.
