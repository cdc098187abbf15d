use crate::programs::program;
use expiry_infer::lives as inferred;
use fx_base::{NoMemory, Seq};
use life_proof::{certify, confirm};
use rule_model::{Life, LifeTable};
use std::alloc::Global;
use std::test::Fail;

const CHAIN: &str =
    "declare A @role( event ) end declare B @role( event ) end declare C @role( event ) end
    rule r when $a : A() $b : B( this after[0s,10s] $a ) C( this after[0s,20s] $b ) then end";

fn table(alloc: Global, lives: &[Life]) -> Result<LifeTable, NoMemory> {
    Ok(LifeTable {
        lives: Seq::from_vec(Vec::from_slice(alloc, lives)?),
    })
}

/// The certificates of these rules' lives, as they are shown for debugging, with whether they are good for the lives and for others.
fn certified(
    alloc: Global,
    rules: &str,
    others: &[Life],
) -> Result<(String, bool, bool), NoMemory> {
    match program(alloc, rules) {
        Some(program) => {
            let lives = inferred(alloc, &program)?;
            let certificates = certify(alloc, &program, &lives)?;
            let good = confirm(alloc, &program, &lives, &certificates)?;
            let others = table(alloc, others)?;
            let otherwise = confirm(alloc, &program, &others, &certificates)?;
            Ok((format!(in alloc; "{certificates:?}")?, good, otherwise))
        }
        None => Err(NoMemory),
    }
}

#[test]
fn a_chain_has_certificates_for_its_lives_alone(rt: HostRuntime) -> Result<(), Fail> {
    let shorter = [Life::Finite(29_999), Life::Finite(20_000), Life::Finite(0)];
    let (text, good, otherwise) = certified(rt.alloc(), CHAIN, &shorter)?;
    assert!(rt; good && !otherwise);
    assert!(rt;
        text.contains(
            "Part { rule: RuleId(0), from: 0, to: 2, cycle: false, edges: [NetEdge { x: 4, y: 3, most: 20000 }, NetEdge { x: 3, y: 2, most: 0 }, NetEdge { x: 2, y: 1, most: 10000 }] }"
        )
    );
    Ok(())
}
