// Demand 3: nobody waits for ever. Theorems over any list of calls; no code.
#![tactic(auto)]
