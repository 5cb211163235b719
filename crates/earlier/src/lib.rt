// The definitions as they were, document 01's and those before locks, and that outlines which a later request does not concern give what
// they gave. No code.
#![tactic(auto)]
