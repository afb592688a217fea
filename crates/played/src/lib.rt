// The promises about runs, for the bench: what it plays is a run, so what is promised of every run holds of it. There is no code here: specs/ has the statements, proofs/ the theorems.
#![tactic(auto)]
