#![tactic(auto)]

// Every rule of the server commutes with a change of wordings: laws only.
