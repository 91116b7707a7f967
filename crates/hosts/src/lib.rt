// What the exported functions mean for a host: no code, so that a wrong program of `exports` is tried
// without these laws. specs/Theorems.antt is the page to read.

#![tactic(auto)]
