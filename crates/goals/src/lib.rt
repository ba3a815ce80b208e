// The states at which a list closes, and which state may stand at a place after the last loop start of a list, as
// mathematics: definitions and laws, no code.
#![tactic(auto)]
