// What is promised of a new read behind kept nodes and entries: definitions and theorems only.
#![tactic(auto)]
