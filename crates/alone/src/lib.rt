// What is promised of the bytes of a node, from its header to its end: definitions and theorems only.
#![tactic(auto)]
