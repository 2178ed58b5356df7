// The laws stand in specs/: this crate has no code.
#![tactic(auto)]
