#![tactic(auto)]

// No code: what marks can cost, and which cells they can reach (document 02, Req 09). See specs/ and proofs/.
