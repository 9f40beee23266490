// The calls for C and Rust: each calls one proved function and hands its answer on as numbers. sillgarland_c exports them.
// Refusal 0 means accepted; on refusal every field but refusal and place is 0, on acceptance place is 0; a truth is 0 or 1.
#![tactic(auto)]

pub mod exceptions;
pub mod goldenfiles;
pub mod joins;
pub mod leaves;
pub mod locals;
pub mod locations;
pub mod nightly;
pub mod origins;
pub mod piecewise;
pub mod reclaiming;
pub mod repairs;
pub mod rowstarts;
pub mod settingfiles;
pub mod spans;
pub mod values;
pub mod varints;
