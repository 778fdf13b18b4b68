#![tactic(auto)]

// Courses of edits and sessions: definitions and laws only.
