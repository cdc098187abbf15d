//! The thirteen temporal operators of Drools Fusion 5 as upper bounds on differences of the starts and ends
//! of two events, and the latest start that an event may have which several of them admit.
//! It assumes nothing of the outside and takes no memory.
#![tactic(auto)]

mod edge;
mod laws;
mod op;
mod room;
mod table;
mod window;
mod word;

pub use edge::{Corner, Edges, OpEdge};
pub use laws::{edges_are_ops, edges_mean_rows, equal_ops, one_window, window_is_of_edges};
pub use op::{Op, OpFault};
pub use window::{Window, possible_start};
pub use word::OpWord;
