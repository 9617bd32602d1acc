// What is claimed of the searches of the crates mode and mode_2d, over every history of their rules. There is
// no code here: specs/ has the claims, proofs/ their proofs.
#![tactic(auto)]
