// From the reader's contract to what a run needs of the rows: laws about the definition and the table, in proofs/.
#![tactic(auto)]

pub fn none() {}
