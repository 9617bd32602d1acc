// Demand 3 and its companions for the sessions of the crates session and host_calls, with one effect and with
// two, down to the words that a host lends and reads. There is no code here: specs/ has the claims, proofs/
// their proofs.
#![tactic(auto)]
