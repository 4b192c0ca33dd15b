#![tactic(auto)]

// No code: the final theorems about the calls' definitions, on one page. See specs/ and proofs/.
