#![tactic(auto)]

// No code: an answer handed back. The definition stands in specs/, the theorem in proofs/.
