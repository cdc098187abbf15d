//! Holds certificates against what is asked for. Each edge is looked up among those of its network, and sums are compared.
ghost use Rattle.std.specs.Prelude.{◌≡◌, pos, ◌^◌, ◌<◌, ◌≤◌, ◌+ℤ◌, ◌-ℤ◌, ◌≤ℤ◌, length, slice_get, IfOk};
ghost use Rattle.std.specs.Bool.{Decides};
ghost use Rattle.std.specs.List.{list_all, All};
ghost use Rattle.temporal_net.specs.Networks.{total as sum_of};
ghost use Rattle.rule_world.specs.Programs.{IsRunnable, NameEarlier};
ghost use Rattle.life_edges.specs.Tails.{limit_of};
ghost use Rattle.life_proof.specs.Asked.{HasPlaces};
ghost use Rattle.life_proof.specs.Good.{are_good_parts as are_good_by, has_edge as is_among, is_bounding as is_bounding_by, is_event_at, is_good_part as is_good_part_by, is_round as is_round_by, is_shown as is_shown_by, is_within_limit as is_within_by, leads as leads_by, returns as returns_by, same_edge as same, tail_at, IsGood};

use crate::asking::{asked, scope_of};
use crate::part::{Asked, Part, Proof};
use crate::tables::is_lawful_table;
use fx_base::{Bound, Millis, NoMemory};
use life_edges::{edges_between, end, start, tail};
use rule_model::{Condition, LifeTable, Program};
use std::alloc::Global;
use temporal_net::NetEdge;

fn same_edge(a: &NetEdge, b: &NetEdge) -> bool
    ensures { result ≡ same a.now b.now }
{
    a.x == b.x && a.y == b.y && a.most == b.most
}

fn has_edge(network: &[NetEdge], edge: &NetEdge) -> bool
    ensures { result ≡ is_among network.now edge.now }
{
    network.iter().any(|other| same_edge(edge, other))
}

fn are_edges(network: &[NetEdge], edges: &[NetEdge]) -> bool
    ensures { result ≡ list_all (is_among network.now) edges.now }
{
    edges.iter().all(|edge| has_edge(network, edge))
}

// A sum with one edge more, which is at most 2^63 in size.
fn with_edge(sum: i128, edge: &NetEdge) -> i128
    requires low { (pos (2 ^ 63) -ℤ pos (2 ^ 127)) ≤ℤ sum }
    requires high { sum ≤ℤ (pos (2 ^ 127) -ℤ pos (2 ^ 63)) }
    ensures sum { result ≡ sum +ℤ edge.now.most }
    ensures low { (sum -ℤ pos (2 ^ 63)) ≤ℤ result }
    ensures high { result ≤ℤ (sum +ℤ pos (2 ^ 63)) }
{
    sum + i128::from(edge.most)
}

/// The sum of what edges allow.
pub fn total(edges: &[NetEdge]) -> i128
    ensures { result ≡ sum_of edges.now }
{
    let mut sum: i128 = 0;
    for edge in edges {
        sum = with_edge(sum, edge);
    }
    sum
}

// Whether the edges lead from one point to another, each from the end of the one before.
fn leads(from: u8, edges: &[NetEdge], to: u8) -> bool
    ensures { result ≡ leads_by from edges.now to }
{
    let mut at = from;
    for edge in edges {
        if edge.x != at {
            return false;
        }
        at = edge.y;
    }
    at == to
}

// Whether the edges lead round to where they begin.
fn returns(edges: &[NetEdge]) -> bool
    ensures { result ≡ returns_by edges.now }
{
    match edges {
        [] => false,
        [first, ..] => {
            let point = first.x;
            leads(point, edges, point)
        }
    }
}

fn left_of(life: Millis, tail: Millis) -> i128
    ensures { result ≡ life -ℤ tail }
{
    i128::from(life) - i128::from(tail)
}

fn is_within(sum: i128, tail: Bound, life: Millis) -> bool
    ensures { result ≡ is_within_by sum (limit_of tail) life }
{
    match tail {
        Bound::Finite(tail) => sum <= left_of(life, tail),
        Bound::Infinite => false,
    }
}

/// The tail of the condition of this place; infinite where there is none.
pub fn tail_at_place(program: &Program, conditions: &[Condition], place: usize) -> Bound
    ensures { limit_of result ≡ tail_at program.now (slice_get conditions.now place) }
{
    match conditions.get(place) {
        Some(condition) => tail(program, condition.pattern()),
        None => Bound::Infinite,
    }
}

// Whether the condition of this place is on an event type.
fn is_on_event(program: &Program, conditions: &[Condition], place: usize) -> bool
    ensures { result ≡ is_event_at program.now (slice_get conditions.now place) }
{
    match conditions.get(place) {
        Some(condition) => program.is_event(condition.pattern().ty),
        None => false,
    }
}

// Whether the edges are a path that shows what is asked, among the conditions that matter.
#[tactic(auto, unfolding(crate::specs::Good::is_bounding))]
fn is_bounding(
    alloc: Global,
    program: &Program,
    conditions: &[Condition],
    asked: &Asked,
    edges: &[NetEdge],
) -> Result<bool, NoMemory>
    requires few { length conditions.now ≤ 8 }
    requires named { NameEarlier conditions.now }
    requires from { asked.now.from < 8 }
    requires to { asked.now.to < 8 }
    ensures { IfOk result (λ good. good ≡ is_bounding_by program.now conditions.now asked.now.from asked.now.to asked.now.life edges.now) }
{
    let network = edges_between(alloc, program, conditions, asked.from, asked.to)?;
    let tail = tail_at_place(program, conditions, asked.to);
    Ok(
        are_edges(&network, edges)
            && leads(start(asked.to), edges, end(asked.from))
            && is_within(total(edges), tail, asked.life),
    )
}

// Whether the edges are a cycle that shows what is asked.
#[tactic(auto, unfolding(crate::specs::Good::is_round))]
fn is_round(
    alloc: Global,
    program: &Program,
    conditions: &[Condition],
    asked: &Asked,
    edges: &[NetEdge],
) -> Result<bool, NoMemory>
    requires few { length conditions.now ≤ 8 }
    requires named { NameEarlier conditions.now }
    ensures { IfOk result (λ good. good ≡ is_round_by program.now conditions.now asked.now.from asked.now.to edges.now) }
{
    let network = edges_between(alloc, program, conditions, asked.from, asked.to)?;
    Ok(
        are_edges(&network, edges)
            && returns(edges)
            && total(edges) < 0
            && is_on_event(program, conditions, asked.to),
    )
}

#[tactic(auto, unfolding(crate::specs::Good::is_shown))]
fn is_shown(
    alloc: Global,
    program: &Program,
    conditions: &[Condition],
    asked: &Asked,
    part: &Part,
) -> Result<bool, NoMemory>
    requires few { length conditions.now ≤ 8 }
    requires named { NameEarlier conditions.now }
    requires from { asked.now.from < 8 }
    requires to { asked.now.to < 8 }
    ensures { IfOk result (λ good. good ≡ is_shown_by program.now conditions.now asked.now.from asked.now.to asked.now.life part.now.cycle part.now.edges) }
{
    let edges = part.edges.as_slice();
    if part.cycle {
        is_round(alloc, program, conditions, asked, edges)
    } else {
        is_bounding(alloc, program, conditions, asked, edges)
    }
}

// Whether a part is of the places that are asked for, and its edges show what is asked.
#[tactic(auto, unfolding(crate::specs::Good::is_good_part))]
fn is_good_part(
    alloc: Global,
    program: &Program,
    asked: &Asked,
    part: &Part,
) -> Result<bool, NoMemory>
    requires runnable { IsRunnable program.now }
    requires places { HasPlaces program.now asked.now }
    ensures { IfOk result (λ good. good ≡ is_good_part_by program.now asked.now part.now) }
{
    if part.rule.0 as usize != asked.rule
        || part.from as usize != asked.from
        || part.to as usize != asked.to
    {
        return Ok(false);
    }
    is_shown(alloc, program, scope_of(program, asked), asked, part)
}

// Whether the parts show what is asked, one for each in the same order.
fn are_good_parts(
    alloc: Global,
    program: &Program,
    asked: &[Asked],
    parts: &[Part],
) -> Result<bool, NoMemory>
    requires runnable { IsRunnable program.now }
    requires places { All (HasPlaces program.now) asked.now }
    ensures { IfOk result (λ good. good ≡ are_good_by program.now asked.now parts.now) }
{
    if asked.len() != parts.len() {
        return Ok(false);
    }
    for (place, one) in asked.iter().enumerate() {
        if !is_good_part(alloc, program, one, &parts[place])? {
            return Ok(false);
        }
    }
    Ok(true)
}

/// Whether the certificates are good for the table of lives: whether the table is one that the program's types and windows allow, and
/// there is a part for each bound that its finite lives rest on, in order, whose edges stand in the network and show that bound.
pub fn confirm(
    alloc: Global,
    program: &Program,
    lives: &LifeTable,
    certificate: &Proof,
) -> Result<bool, NoMemory>
    requires { IsRunnable program.now }
    ensures { IfOk result (λ good. Decides good (IsGood program.now lives.now certificate.now)) }
{
    if !is_lawful_table(program, lives) {
        return Ok(false);
    }
    let asked = asked(alloc, program, lives)?;
    are_good_parts(alloc, program, &asked, certificate.parts.as_slice())
}
