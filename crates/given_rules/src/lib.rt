//! Expressions that are given for names: what a program does where they stand for what it reads.
#![tactic(auto)]
