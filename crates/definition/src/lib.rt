// No code: document 01 as definitions, their laws and theorems, in specs/.
#![tactic(auto)]
