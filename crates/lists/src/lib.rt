// Lists, options, tests, ranges and least numbers: definitions and laws, no code.
#![tactic(auto)]
