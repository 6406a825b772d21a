// Lists of calls and what they come to, computed. It has no code of its own.
#![tactic(auto)]
