// Demand 3 for the controller's calls: the claim in `specs/`, its proof in `proofs/`. No code.
#![tactic(auto)]
