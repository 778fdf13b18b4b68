#![tactic(auto)]

// What holds between cards and records: definitions and laws only.
