ghost use Rattle.std.specs.Prelude.{◌≡◌, ◌≢◌, ℕ, ◌+◌, ◌<◌, ◌≤◌, List, [], map, length, take, get_or, Option, Some, None, true, false, IfNone, IfSome, IfOk, pos, ◌≤ℤ◌};
ghost use Rattle.std.specs.List.{All};
ghost use Rattle.temporal_net.specs.Networks.{HasItsPoints, IsSmallEdge, edge_at};
ghost use Rattle.temporal_net.specs.Tables.{cell, loses, loses_over, lowered, opens, AllShort, AreTable, HaveWays, IsShortDistance, StepsWay, FollowsWay};

use crate::NetEdge;
use crate::distance::Distance;
use fx_base::NoMemory;
use std::alloc::Global;

/// How many points a network may have.
pub const MOST_POINTS: usize = 16;

/// The known distances from one point to each other one.
pub type Row = [Option<Distance>; MOST_POINTS];

/// The rows of a network with no edges: each point is at no distance from itself.
pub fn bare_rows(alloc: Global, points: u8) -> Result<Vec<Row>, NoMemory>
    requires { points ≤ 16 }
    ensures tall { IfOk result (λ rows. length rows.items ≡ points) }
    ensures table { IfOk result (λ rows. AreTable 0 [] rows.items) }
{
    let mut rows = Vec::with_capacity(alloc, points as usize)?;
    for point in 0..points {
        let mut row = [None; MOST_POINTS];
        row[point as usize] = Some(Distance::zero());
        rows.push(row)?;
    }
    Ok(rows)
}

/// Takes the edge with this number into rows that have the edges before it.
pub fn add_edge(rows: &mut [Row], edges: &[NetEdge], number: usize)
    requires known { number < length edges.now }
    requires among { HasItsPoints (length rows.old) (edge_at edges.now number) }
    requires small { IsSmallEdge (edge_at edges.now number) }
    requires turn { (edge_at edges.now number).x ≡ (edge_at edges.now number).y → pos 0 ≤ℤ (edge_at edges.now number).most }
    requires table { AreTable 0 (take number edges.now) rows.old }
    ensures { AreTable 0 (take (number + 1) edges.now) rows.new }
{
    let edge = edges[number];
    let row = &mut rows[edge.x as usize];
    let y = edge.y as usize;
    row[y] = Some(Distance::least(row[y], Distance::of_edge(&edge)));
}

/// The first point from which the way to `via` and back has a sum below 0.
pub fn losing_point(rows: &[Row], via: usize) -> Option<usize>
    requires few { length rows.now ≤ 16 }
    requires inside { via < length rows.now }
    requires short { AllShort rows.now }
    ensures within { IfSome result (λ x. x < length rows.now) }
    ensures some { IfSome result (λ x. loses_over rows.now via x ≡ true) }
    ensures none { IfNone result ((x : ℕ) → x < length rows.now → loses_over rows.now via x ≡ false) }
{
    for x in 0..rows.len() {
        if loses_round(rows[x][via], rows[via][x]) {
            return Some(x);
        }
    }
    None
}

/// Whether a way there and back has a sum below 0.
fn loses_round(out: Option<Distance>, back: Option<Distance>) -> bool
    requires out { IfSome out IsShortDistance }
    requires back { IfSome back IsShortDistance }
    ensures { result ≡ loses out back }
{
    match (out, back) {
        (Some(out), Some(back)) => out.sum + back.sum < 0,
        _ => false,
    }
}

/// Lowers each distance by the way over the point `via`: a phase of the Floyd-Warshall algorithm.
pub fn lower_over(rows: &mut [Row], via: usize)
    requires few { length rows.old ≤ 16 }
    requires inside { via < length rows.old }
    requires short { AllShort rows.old }
    ensures tall { length rows.new ≡ length rows.old }
    ensures lowered { (x y : ℕ) → x < length rows.old → y < length rows.old
        → cell rows.new x y ≡ lowered (cell rows.old x y) (cell rows.old x via) (cell rows.old via y) }
{
    let points = rows.len();
    let through = rows[via];
    for row in rows.iter_mut() {
        if let Some(first) = row[via] {
            lower_row(row, points, first, &through);
        }
    }
}

/// Lowers the first distances of a row by a first way and then those of another row.
fn lower_row(row: &mut Row, points: usize, first: Distance, through: &Row)
    requires few { points ≤ 16 }
    requires first { IsShortDistance first }
    requires known { (y : ℕ) → y < points → IfSome (get_or row.old y None) IsShortDistance }
    requires second { (y : ℕ) → y < points → IfSome (get_or through.now y None) IsShortDistance }
    ensures { (y : ℕ) → y < points → get_or row.new y None ≡ lowered (get_or row.old y None) (Some first) (get_or through.now y None) }
{
    for y in 0..points {
        if let Some(second) = through[y] {
            row[y] = Some(Distance::least(row[y], first.then(second)));
        }
    }
}

/// The numbers of the edges of the least way between two points; among ways that are equal in sum and number of
/// edges, that whose list of numbers is the first in order.
pub fn way(
    alloc: Global,
    edges: &[NetEdge],
    rows: &[Row],
    from: usize,
    to: usize,
) -> Result<Vec<usize>, NoMemory>
    requires ways { HaveWays edges.now rows.now }
    requires from { from < length rows.now }
    requires to { to < length rows.now }
    requires known { cell rows.now from to ≢ None }
    ensures { IfOk result (λ way. FollowsWay (length rows.now) edges.now (cell rows.now) from to way.items) }
{
    let mut numbers = Vec::new(alloc);
    let mut at = from;
    while at != to {
        let number = first_edge(edges, rows, at, to);
        numbers.push(number)?;
        at = edges[number].y as usize;
    }
    Ok(numbers)
}

/// The first edge that begins the way between two points.
fn first_edge(edges: &[NetEdge], rows: &[Row], from: usize, to: usize) -> usize
    requires ways { HaveWays edges.now rows.now }
    requires from { from < length rows.now }
    requires to { to < length rows.now }
    requires known { cell rows.now from to ≢ None }
    requires apart { from ≢ to }
    ensures { StepsWay (length rows.now) edges.now (cell rows.now) from to result }
{
    for (number, edge) in edges.iter().enumerate() {
        if edge.x as usize == from && leaves_rest(rows[from][to], rows[edge.y as usize][to], edge) {
            return number;
        }
    }
    unreachable!()
}

/// Whether the edge leaves the rest of the whole distance.
fn leaves_rest(whole: Option<Distance>, rest: Option<Distance>, edge: &NetEdge) -> bool
    requires small { IsSmallEdge edge.now }
    requires rest { IfSome rest IsShortDistance }
    ensures { result ≡ opens whole rest edge.now.most }
{
    match (whole, rest) {
        (Some(whole), Some(rest)) => whole.sum == edge.most + rest.sum
            && whole.edges == rest.edges + 1,
        _ => false,
    }
}

/// The edges with these numbers.
pub fn edges_at(
    alloc: Global,
    edges: &[NetEdge],
    numbers: &[usize],
) -> Result<Vec<NetEdge>, NoMemory>
    requires { All (λ number. number < length edges.now) numbers.now }
    ensures { IfOk result (λ taken. taken.items ≡ map (edge_at edges.now) numbers.now) }
{
    let mut taken = Vec::with_capacity(alloc, numbers.len())?;
    for number in numbers {
        taken.push(edges[*number])?;
    }
    Ok(taken)
}
