// What computations on a builder's list keep, and what their answers are worth: definitions and laws stand in specs/.

#![tactic(auto)]
