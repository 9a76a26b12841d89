#![tactic(auto)]

// No code: what the call for a whole firm answers, and the theorems on it.
