// Laws of proofs by hand, which walk a function's code in the program logic. There is no code here.
#![tactic(auto)]
