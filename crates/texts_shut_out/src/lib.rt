#![tactic(auto)]

// Sides that look at texts are shut out: definitions and laws only.
