// Lists and keyed lists, for the definitions and laws of the crates above. There is no code here.
#![tactic(auto)]
