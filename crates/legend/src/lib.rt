// What a drawing says: definitions and theorems stand in specs/.

#![tactic(auto)]
