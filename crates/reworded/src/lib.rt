#![tactic(auto)]

// Other wordings in every place of tables and packages: definitions and laws only.
