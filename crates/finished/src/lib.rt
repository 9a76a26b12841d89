#![tactic(auto)]

// No code: what `finish` answers, and the theorems on it.
