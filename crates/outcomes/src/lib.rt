// What every call answers and writes: this crate has no code; its definitions are in specs/, their laws in proofs/.
#![tactic(auto)]
