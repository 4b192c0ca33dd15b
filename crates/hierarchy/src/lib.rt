#![tactic(auto)]

// No code: a hierarchy of cells with neighbourhoods, and the smallest admissible set around a set of cells. See specs/ and proofs/.
