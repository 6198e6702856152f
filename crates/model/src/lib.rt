//! The papers' model of plans, orders and sequences. A crate of definitions and theorems: no code, no words, no buffers.
#![tactic(auto)]
