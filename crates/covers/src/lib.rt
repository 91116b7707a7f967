// The mathematics of cuttings. This crate has no code: what it says stands in specs/, and what it proves in proofs/.

#![tactic(auto)]
