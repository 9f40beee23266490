// Two readings that differ by a shift, and one whose reference indices are lowered: definitions and theorems only.
#![tactic(auto)]
