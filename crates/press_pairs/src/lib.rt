#![tactic(auto)]

// The press at Pkg 4, and what holds between cards and records: laws only.
