#![tactic(auto)]

// No code: refusal 7 by content. The definition stands in specs/, the theorems in proofs/.
