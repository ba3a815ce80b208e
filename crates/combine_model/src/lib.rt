// The combination of a model with a property, as mathematics: definitions and laws; no code.
#![tactic(auto)]
