// What is claimed of document 01's program over every input, beyond the contracts of focei_fit: that it reads
// enough, that its questions are all answered, and that it never prints 19. There is no code here: specs/ has
// the claims, proofs/ their proofs.
#![tactic(auto)]
