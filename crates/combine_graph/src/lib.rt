// The combination of a rule file and a property file, as mathematics: definitions and laws, no code.
#![tactic(auto)]
