// No code: what is promised of hours behind slips, as statements over the definitions of the other crates, and their proofs.
#![tactic(auto)]
