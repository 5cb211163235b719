// Diversity of sets of taxa, and the best set for a page count: the definitions, and the starred cases that they have to
// meet. No code.
#![tactic(auto)]
