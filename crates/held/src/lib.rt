// No code: the lent lists hold the state of the definition's search, as it begins and as it ends.
#![tactic(auto)]
