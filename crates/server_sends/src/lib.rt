#![tactic(auto)]

// Every package that the server sends is in the written form: definitions and laws only.
