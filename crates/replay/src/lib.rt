//! The program: it reads a rule file and replays a script over it, and writes what fires and what is faulty. In other modes it writes
//! whether the file is accepted, how long the events of its types matter, or the image of a run, from which another run goes on. It also runs
//! over a generated load, and writes a summary.
//! It knows the outside by its traits alone, so that its answer is a matter of proof.
//! Calls that allocate answer `NoMemory` where memory is refused, the top call status 7.
#![tactic(auto)]

mod beginning;
mod checkpoint_file;
pub mod laws;
mod load;
mod modes;
mod proving;
mod refusal;
mod refused_checkpoint;
mod rule_file;
mod running;
mod saving;
mod saying;
mod status;
mod summing;
mod top;

pub use beginning::Beginning;
pub use checkpoint_file::{CheckpointFault, IMAGE_MAX, read_image};
pub use refusal::{Refusal, RefusalCode, whole_file};
pub use refused_checkpoint::{CheckpointCode, refuse_checkpoint};
pub use rule_file::{FileFault, Reading, RulesRead, read_named_rules, read_rules, read_whole};
pub use running::begun;
pub use saving::can_go_on;
pub use saying::{refuse, say};
pub use status::status_of_fault;
pub use top::{FILE_MAX, replay, run_rules};
