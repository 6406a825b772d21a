// What a line is answered: definitions and laws. It has no code of its own.
#![tactic(auto)]
