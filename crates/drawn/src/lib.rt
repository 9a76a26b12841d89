#![tactic(auto)]

// No code: the definition of the test load in specs/, its theorems and examples in proofs/.
