#![tactic(auto)]

// Grammars: what it is for values to have a written form, and the laws of lists and of whole messages. Definitions and proofs only.
