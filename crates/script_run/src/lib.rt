//! The run of a script over an engine: what each line does, the firings of a fire command up to the limit, and what is printed. It knows the
//! engine by its trait alone; `line_run` hands it the lines. Calls that allocate answer `NoMemory` where memory is refused.
#![tactic(auto)]

mod counting;
mod fault;
mod firing;
mod form;
pub mod laws;
mod line_read;
mod live;
mod obeying;
mod run_fault;
mod running;
mod text;
mod written;

pub use form::Form;
pub use live::{LIVE_MAX, LiveLines};
pub use run_fault::RunFault;
pub use running::{run, run_from};
pub use text::{name_of_rule, push_limit, push_number, push_quoted, push_signed};
