// That a golden moved into fields and back, or out of them and into them again, is the same bytes: definitions and theorems only.
#![tactic(auto)]
