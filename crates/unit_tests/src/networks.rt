ghost use Rattle.std.specs.Prelude.{◌≡◌, ◌≢◌, ◌<◌};

use fx_base::{Bound, Seq};
use std::alloc::Global;
use std::process::Abort;
use std::test::Fail;
use temporal_net::{Minimal, Net, NetEdge, NetFault};

#[test]
fn worked_networks(rt: HostRuntime) -> Result<(), Fail> {
    let within = [edge(1, 0, 10), edge(0, 1, -3)];
    let minimal = Net::solve(rt.alloc(), 2, &within)?;
    has_path(&rt, rt.alloc(), &minimal, (1, 0), 10, &within[..1])?;
    has_path(&rt, rt.alloc(), &minimal, (0, 1), -3, &within[1..])?;

    let apart = [edge(1, 0, 10), edge(0, 1, -11)];
    let both = Seq::from_vec(Vec::from_slice(rt.alloc(), &[0, 1])?);
    assert_eq!(rt;
        Net::solve(rt.alloc(), 2, &apart).err(),
        Some(NetFault::NegativeCycle(both))
    );

    let chain = [edge(2, 1, 0), edge(1, 0, 0), edge(2, 0, 0)];
    let minimal = Net::solve(rt.alloc(), 3, &chain[..2])?;
    has_path(&rt, rt.alloc(), &minimal, (2, 0), 0, &chain[..2])?;
    assert_eq!(rt; minimal.bound(0, 2), Bound::Infinite);
    let minimal = Net::solve(rt.alloc(), 3, &chain)?;
    has_path(&rt, rt.alloc(), &minimal, (2, 0), 0, &chain[2..])
}

#[test]
fn equal_paths_go_by_edge_numbers(rt: HostRuntime) -> Result<(), Fail> {
    let edges = [edge(2, 0, 4), edge(1, 0, 5), edge(3, 1, 2), edge(3, 2, 3)];
    let minimal = Net::solve(rt.alloc(), 4, &edges)?;
    has_path(&rt, rt.alloc(), &minimal, (3, 0), 7, &[edges[2], edges[1]])
}

fn edge(x: u8, y: u8, most: i64) -> NetEdge
    ensures { result ≡ record { x = x; y = y; most = most } }
{
    NetEdge { x, y, most }
}

fn has_path(
    rt: &impl Abort,
    alloc: Global,
    minimal: &Minimal,
    ends: (u8, u8),
    sum: i64,
    path: &[NetEdge],
) -> Result<(), Fail>
    requires x { ends.0 < minimal.now.points }
    requires y { ends.1 < minimal.now.points }
    requires apart { ends.0 ≢ ends.1 }
{
    assert_eq!(rt; minimal.bound(ends.0, ends.1), Bound::Finite(sum));
    assert_eq!(rt; minimal.path(alloc, ends.0, ends.1)?.as_slice(), path);
    Ok(())
}
