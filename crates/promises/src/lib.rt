// No code: the three demands as statements over the definitions of the other crates, and their proofs.
#![tactic(auto)]
