// Steps of proofs by hand: how a function that lends structs, or is lent them, is walked. It has no code of its own.
#![tactic(auto)]
