//! The bytes of a slice, and a slice out of bytes.
#![tactic(auto)]

mod faults;
mod flits;
mod journals;
mod laws;
mod lines;
mod loads;
mod read;
mod read_flits;
mod read_journals;
mod read_lines;
mod saves;
mod written;

pub use faults::LoadFault;
pub use laws::a_snapshot_is_of_one_slice;
pub use loads::load;
pub use saves::save;
