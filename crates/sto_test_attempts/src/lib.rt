//! Documented runs, worked through the definitions of what an attempt does next.
#![tactic(auto)]
