// The mathematics of couplings.
#![tactic(auto)]
