// Conditions 1 and 2, and what grades say: this crate has no code; its statements are in specs/, their proofs in proofs/.
#![tactic(auto)]
