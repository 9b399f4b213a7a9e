// The values of a list: definitions and laws stand in specs/.

#![tactic(auto)]
