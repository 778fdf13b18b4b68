#![tactic(auto)]

// Texts decide nothing: the statement and its proof; definitions and laws only.
