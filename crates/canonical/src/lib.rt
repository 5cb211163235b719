// When two outlines are the same tree, and the one form in which a tree is written: definitions and laws, no code.
#![tactic(auto)]
