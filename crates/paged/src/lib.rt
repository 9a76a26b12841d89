#![tactic(auto)]

// No code: the counter page, and the theorems on it.
