// The promises of the user's demand 3, of C-16 and of "A body never included ..", about the definition: statements in specs/,
// proofs in proofs/.
#![tactic(auto)]

pub fn none() {}
