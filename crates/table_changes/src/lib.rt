// A table with one thing changed, in the rules and in its cells: definitions and laws. There is no code here.
#![tactic(auto)]
