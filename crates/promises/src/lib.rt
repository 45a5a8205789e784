// What it is that a promise settles: definitions for the theorems `one_..` of the crates with public functions.
// There is no code here.
#![tactic(auto)]
