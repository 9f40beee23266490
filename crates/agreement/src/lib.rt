// One answer per input for each callable function, each as a named theorem: statements about contracts only.
#![tactic(auto)]
