#![tactic(auto)]

// No code: a mesh whose cells are held as two planes of bits (document 02, Req 11). See specs/ and proofs/; the code is in crates packing,
// words and plane_calls.
