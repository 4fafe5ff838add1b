// Definitions and laws alone: what the specs of the other crates share.
#![tactic(auto)]
