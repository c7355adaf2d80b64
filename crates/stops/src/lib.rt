// Why a run of the definition stops, and where: for one of 3 to 19, at a place in the body of a member; and what an origin line can
// hold. Laws alone, in proofs/.
#![tactic(auto)]

pub fn none() {}
