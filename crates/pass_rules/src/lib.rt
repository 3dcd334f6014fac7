//! What the relations of the passes have in common: the value of an expression where it is known, small trees round others, and
//! defaults that say nothing.
#![tactic(auto)]
