// The list in the working table: which state may stand at its next place, the list completed, and the list after a given
// one, as mathematics: definitions and laws, no code.
#![tactic(auto)]
