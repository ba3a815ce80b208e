// Condition 3: one claim about any sequence of calls.
#![tactic(auto)]
