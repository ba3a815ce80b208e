// Sources with start levels of their own, and the least levels and lengths at which they hit a state, as mathematics:
// definitions and laws, no code.
#![tactic(auto)]
