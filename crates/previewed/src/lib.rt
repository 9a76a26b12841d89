#![tactic(auto)]

// No code: what a preview answers, and the theorems on it.
