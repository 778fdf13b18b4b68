#![tactic(auto)]

// The bench table, row by row: definitions and laws only.
