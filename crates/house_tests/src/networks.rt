use crate::programs::program;
use fx_base::NoMemory;
use rete_net::Rete;
use std::alloc::Global;
use std::test::Fail;

/// How many nodes the network of a rule file has, if the file is accepted.
fn nodes(alloc: Global, rules: &str) -> Result<Option<usize>, NoMemory> {
    match program(alloc, rules) {
        Some(program) => {
            let (net, _) = Rete::build(alloc, &program)?;
            Ok(Some(net.nodes()))
        }
        None => Ok(None),
    }
}

/// Rule files, and how many nodes their networks have: one for each distinct front of the conditions of their rules.
const NODES: &[(&str, usize)] = &[
    // The second rule has the front of the first one without its last condition.
    (
        "declare A @role( event ) end declare B @role( event ) end declare C @role( event ) end\n\
        rule 'r' when $a : A() $b : B( this after[0s,10s] $a ) C( this after[0s,20s] $b ) then end\n\
        rule 's' when $a : A() $b : B( this after[0s,10s] $a ) then end",
        3,
    ),
    // The rules have their first condition in common.
    (
        "declare A @role( event ) end declare B @role( event ) end declare C @role( event ) end\n\
        rule 'r' when $a : A() $b : B( this after[0s,10s] $a ) C( this after[0s,20s] $b ) then end\n\
        rule 's' when $a : A() C( this after[0s,10s] $a ) then end",
        4,
    ),
];

#[test]
fn rules_share_the_nodes_of_equal_fronts(rt: HostRuntime) -> Result<(), Fail> {
    for (rules, count) in NODES {
        assert_eq!(rt; nodes(rt.alloc(), rules)?, Some(*count));
    }
    Ok(())
}
