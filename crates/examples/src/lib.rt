// The worked examples: one lemma over a list of them stands in specs/.

#![tactic(auto)]
