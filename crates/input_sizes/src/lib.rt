// How many bytes of an input decide: this crate has no code; its definitions are in specs/, their laws in proofs/.
#![tactic(auto)]
