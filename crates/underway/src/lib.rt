// A writing under way, and what each node is written as: definitions and laws only, by which the crates that write are proved.
#![tactic(auto)]
