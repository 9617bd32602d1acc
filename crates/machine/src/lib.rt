// What a session is, over any rules of a search and any machine that drives them, and what is claimed of
// every list of a session's calls (demand 3). There is no code here: specs/ has the claim, proofs/ its proof.
#![tactic(auto)]
