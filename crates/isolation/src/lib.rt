// Two departments, one step table: this crate has no code; its definitions are in specs/, their laws in proofs/.
#![tactic(auto)]
