// That every cutting of a line table reads as the joined table does: definitions and theorems only.
#![tactic(auto)]
