#![tactic(auto)]

// Every package that the press sends is in the written form: definitions and laws only.
