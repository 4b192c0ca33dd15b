#![tactic(auto)]

// No code: definitions and laws that the other crates share and that say nothing of meshes. They are in specs/ and proofs/.
