#![tactic(auto)]

// Sessions broken off, against the session at once: definitions and laws only.
