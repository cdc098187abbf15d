//! The rows of conditions as sets, and what one condition more at the end makes of them: for each kind of condition one line, read
//! backward from a row. It has definitions and laws alone, joins the definition of rows over tuples to the sets of rows that the
//! nodes of a network speak of, and assumes nothing of the outside. It takes no memory.
#![tactic(auto)]

pub mod laws;
