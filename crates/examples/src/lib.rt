// The examples of the contract: tables of calls and what each answers; no code.
#![tactic(auto)]
