// Laws, no code: how many records the results of a step leave, and that results of different points may be put in any order. See proofs/.
#![tactic(auto)]
