// The delivery by radio.
#![tactic(auto)]
