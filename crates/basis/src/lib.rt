#![tactic(auto)]

// No code: the hierarchical basis as it is published, and the theorem that the labels of a mesh say it. See specs/ and proofs/.
