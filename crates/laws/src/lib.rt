// Laws of the definitions in `outline` and `diversity`: what the exhaustive search ends with, sets of taxa as numbers, and
// diversity as a recursion over the links. No code.
#![tactic(auto)]
