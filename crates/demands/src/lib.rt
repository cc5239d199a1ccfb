// The three demands over the cells: definitions and their theorems. There is no code here.
#![tactic(auto)]
