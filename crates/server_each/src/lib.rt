#![tactic(auto)]

// The server at Pkg 3, record by record: laws only.
