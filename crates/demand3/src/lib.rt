// Demand 3 wherever a person meets it, in specs/ and proofs/. There is no code here.
#![tactic(auto)]
