use engine::Detail;
use rule_model::{LifeTable, Program};

/// What a session runs: a program, how long its events can still matter, and how much its lines tell.
#[derive(Drop)]
pub struct Setting {
    pub program: Program,
    pub lives: LifeTable,
    pub detail: Detail,
}
