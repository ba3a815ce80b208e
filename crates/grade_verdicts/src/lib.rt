// The verdicts of a grade, as mathematics: definitions and laws, no code.
#![tactic(auto)]
