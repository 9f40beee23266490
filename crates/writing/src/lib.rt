// What is written for a node of any stores whatever, or the refusal: definitions and laws only, which the writer and the promises cite.
#![tactic(auto)]
