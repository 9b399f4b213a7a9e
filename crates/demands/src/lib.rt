// Theorems about the calls, words in stores: they stand in specs/.

#![tactic(auto)]
