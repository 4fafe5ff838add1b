// No code: what is promised of seasons, as statements over the definitions of the other crates, and their proofs.
#![tactic(auto)]
