#![tactic(auto)]

// Packages in the written form: definitions and laws only.
