// That a moved value is the value it was: definitions and theorems only.
#![tactic(auto)]
