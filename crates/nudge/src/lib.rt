#![tactic(auto)]

// No code: how far a surface moves when heights do, a theorem about the answers of `heights`. See specs/ and proofs/.
