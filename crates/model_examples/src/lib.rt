// Computed runs that meet the premises of the theorems of `model`. They stand apart so that an edit of a definition, which the theorems refuse, need not
// compute them. There is no code.
#![tactic(auto)]
