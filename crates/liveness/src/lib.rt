// Why the definitions of the model keep demand 3, all in specs/ and proofs/.
#![tactic(auto)]
