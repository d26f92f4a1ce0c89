//! The characters that texts, names and messages give a meaning, each by a name that contracts use. It has no code.
#![tactic(auto)]
