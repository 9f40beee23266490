// The demands and what the requests promise, each as a named theorem: statements about contracts only.
#![tactic(auto)]
