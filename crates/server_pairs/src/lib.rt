#![tactic(auto)]

// The server at Pkg 3 and Pkg 5, and what holds between cards and records: laws only.
