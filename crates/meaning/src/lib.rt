// What values are, what stores mean and how values are written: definitions and the theorems of the round trip only.
#![tactic(auto)]
