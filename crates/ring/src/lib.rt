// Commutative rings: their laws, the residues of any modulus, pairs with u² = w. Definitions and theorems only.

#![tactic(auto)]
