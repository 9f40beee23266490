// That all nodes of a value name one input, through reading, moving and appending: definitions and theorems only.
#![tactic(auto)]
