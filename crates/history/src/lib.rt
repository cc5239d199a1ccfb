// The book and demand 3: definitions and laws. There is no code here.
#![tactic(auto)]
