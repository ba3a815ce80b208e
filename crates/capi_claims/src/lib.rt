// What the values of the C functions tell, and that nothing is lost in them: this crate has no code; its statements are in
// specs/, their proofs in proofs/.
#![tactic(auto)]
