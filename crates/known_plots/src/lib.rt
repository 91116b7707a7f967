// Plots that are computed by the definitions of `tiler` and `single_tiling`. This crate has no code: what it says and proves stands in specs/.

#![tactic(auto)]
