ghost use Rattle.std.specs.Prelude.{◌∷◌, [], ◌≡◌, ◌<◌, ◌≤◌, ◌==◌, ◌++◌, length, map, IfOk};
ghost use Rattle.std.specs.List.{All, list_any};
ghost use Rattle.life_meaning.specs.Networks.{bindings};
ghost use Rattle.rule_world.specs.Programs.{NameEarlier};
ghost use Rattle.life_edges.specs.Edges.{start_point_of, end_of, point_of, net_edge, place_of as place_in, test_edges, event_edges, pattern_edges, stands_in_network as is_inside, edges_of_conditions};

use fx_base::NoMemory;
use rule_model::{Condition, Pattern, Program, TimeTest};
use std::alloc::Global;
use temporal_net::NetEdge;
use temporal_ops::{Corner, OpEdge};

/// How many points a network has: a start and an end for each of at most 8 conditions.
pub const POINTS: u8 = 16;

/// The start of the event of the condition of this place.
pub fn start(place: usize) -> u8
    requires { place < 8 }
    ensures { result ≡ start_point_of place }
{
    place as u8 * 2
}

/// The end of the event of the condition of this place.
pub fn end(place: usize) -> u8
    requires { place < 8 }
    ensures { result ≡ end_of place }
{
    place as u8 * 2 + 1
}

// The point of the tested event or of that which the test names, by the places of their conditions.
fn point(corner: Corner, tested: usize, named: usize) -> u8
    requires tested { tested < 8 }
    requires named { named < 8 }
    ensures { result ≡ point_of tested named corner }
{
    match corner {
        Corner::AStart => start(tested),
        Corner::AEnd => end(tested),
        Corner::BStart => start(named),
        Corner::BEnd => end(named),
    }
}

// The place of the condition that binds the fact of this number.
fn place_of(conditions: &[Condition], number: u8) -> usize
    requires { number < bindings conditions.now }
    ensures { result ≡ place_in conditions.now number }
{
    let mut left = number;
    for (place, condition) in conditions.iter().enumerate() {
        if let Condition::Plain(_) = condition {
            if left == 0 {
                return place;
            }
            left -= 1;
        }
    }
    unreachable!()
}

// The edges of an operator between the events of the conditions of these places.
fn add_edges(
    edges: &mut Vec<NetEdge>,
    tested: usize,
    named: usize,
    more: &[OpEdge],
) -> Result<(), NoMemory>
    requires tested { tested < 8 }
    requires named { named < 8 }
    ensures { IfOk result (λ _. edges.new.items ≡ edges.old.items ++ map (net_edge tested named) more.now) }
{
    for edge in more {
        edges.push(NetEdge {
            x: point(edge.x, tested, named),
            y: point(edge.y, tested, named),
            most: edge.most,
        })?;
    }
    Ok(())
}

// The edges of a temporal test of the condition of this place.
#[tactic(auto, using(crate::proofs::Places::place_below))]
fn add_test(
    edges: &mut Vec<NetEdge>,
    conditions: &[Condition],
    place: usize,
    test: &TimeTest,
) -> Result<(), NoMemory>
    requires few { length conditions.now ≤ 8 }
    requires place { place < 8 }
    requires named { test.now.fact < bindings conditions.now }
    ensures { IfOk result (λ _. edges.new.items ≡ edges.old.items ++ test_edges conditions.now place test.now) }
{
    let named = place_of(conditions, test.fact);
    let more = test.op.edges();
    add_edges(edges, place, named, &more.items[..more.count])
}

// The edges of an event of the condition of this place, which may have to end where it starts.
fn add_event(edges: &mut Vec<NetEdge>, place: usize, is_point: bool) -> Result<(), NoMemory>
    requires { place < 8 }
    ensures { IfOk result (λ _. edges.new.items ≡ edges.old.items ++ event_edges is_point place) }
{
    let (start, end) = (start(place), end(place));
    edges.push(NetEdge {
        x: start,
        y: end,
        most: 0,
    })?;
    if is_point {
        edges.push(NetEdge {
            x: end,
            y: start,
            most: 0,
        })?;
    }
    Ok(())
}

// The edges of the event of the condition of this place, which has this pattern.
fn add_pattern(
    edges: &mut Vec<NetEdge>,
    program: &Program,
    conditions: &[Condition],
    place: usize,
    pattern: &Pattern,
) -> Result<(), NoMemory>
    requires few { length conditions.now ≤ 8 }
    requires place { place < 8 }
    requires named { All (λ test. test.fact < bindings conditions.now) pattern.now.times }
    ensures { IfOk result (λ _. edges.new.items ≡ edges.old.items ++ pattern_edges program.now conditions.now place pattern.now) }
{
    add_event(edges, place, program.is_point(pattern.ty))?;
    for test in pattern.times.as_slice() {
        add_test(edges, conditions, place, test)?;
    }
    Ok(())
}

fn is_one_of(places: &[usize], place: usize) -> bool
    ensures { result ≡ list_any (λ other. other == place) places.now }
{
    places.iter().any(|other| *other == place)
}

// Whether the network that is made for these places has the condition.
fn stands_in(program: &Program, places: &[usize], place: usize, condition: &Condition) -> bool
    ensures { result ≡ is_inside program.now places.now place condition.now }
{
    match condition {
        Condition::Plain(pattern) => program.is_event(pattern.ty),
        Condition::Negated(_) | Condition::Existing(_) | Condition::Folded(_) => {
            is_one_of(places, place)
        }
    }
}

/// The edges of the network of the conditions, which has the patterns that bind events and of the others those of these places.
pub fn network(
    alloc: Global,
    program: &Program,
    conditions: &[Condition],
    places: &[usize],
) -> Result<Vec<NetEdge>, NoMemory>
    requires few { length conditions.now ≤ 8 }
    requires named { NameEarlier conditions.now }
    ensures { IfOk result (λ edges. edges.items ≡ edges_of_conditions program.now conditions.now places.now 0 conditions.now) }
{
    let mut edges = Vec::new(alloc);
    for (place, condition) in conditions.iter().enumerate() {
        if stands_in(program, places, place, condition) {
            add_pattern(&mut edges, program, conditions, place, condition.pattern())?;
        }
    }
    Ok(edges)
}

/// The edges of the network of the conditions and of these two, which bound how far behind the end of an event of condition i one of
/// condition j can start.
pub fn edges_between(
    alloc: Global,
    program: &Program,
    conditions: &[Condition],
    i: usize,
    j: usize,
) -> Result<Vec<NetEdge>, NoMemory>
    requires few { length conditions.now ≤ 8 }
    requires named { NameEarlier conditions.now }
    ensures { IfOk result (λ edges. edges.items ≡ edges_of_conditions program.now conditions.now (i ∷ j ∷ []) 0 conditions.now) }
{
    network(alloc, program, conditions, &[i, j])
}
