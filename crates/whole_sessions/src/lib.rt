#![tactic(auto)]

// Whole sessions: definitions and laws only.
