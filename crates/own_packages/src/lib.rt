#![tactic(auto)]

// The packages that the sides make themselves: definitions and laws only.
