#![tactic(auto)]

// No code: the definitions of `sheet` computed on sheets, and the hypotheses of its theorems met.
