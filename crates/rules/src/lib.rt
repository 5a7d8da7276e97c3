// The rules of document 01 and the proof of demand 3 stand in specs/ and proofs/. There is no code here.
#![tactic(auto)]
