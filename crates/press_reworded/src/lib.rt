#![tactic(auto)]

// Every rule of the press commutes with a change of wordings: laws only.
