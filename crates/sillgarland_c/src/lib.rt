// The port as a static library: each export calls the library's function of the same name, and states its clauses again.
#![tactic(auto)]

pub mod exceptions;
pub mod goldenfiles;
pub mod joins;
pub mod leaves;
pub mod locals;
pub mod locations;
pub mod nightly;
pub mod origins;
pub mod piecewise;
pub mod reclaiming;
pub mod repairs;
pub mod rowstarts;
pub mod settingfiles;
pub mod spans;
pub mod values;
pub mod varints;
