use rete_net::Rete;
use retention::Retention;

/// What a session keeps beside its contents: the network of its rules, and the events whose lives end.
#[derive(Drop)]
pub struct Memory {
    pub net: Rete,
    pub retention: Retention,
}
