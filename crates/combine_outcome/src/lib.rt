// The combination of a rule file with a property file, its answer and its output, as mathematics: definitions and laws, no
// code.
#![tactic(auto)]
