// What the questions of line tables, leaves and numbers answer, each as a named theorem: statements about contracts only.
#![tactic(auto)]
