#![tactic(auto)]

// No code: the line that number 11 of `finish` names, computed on pairs of sheets.
