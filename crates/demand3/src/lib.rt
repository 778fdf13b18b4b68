#![tactic(auto)]

// Demand 3: its statement; definitions and laws only.
