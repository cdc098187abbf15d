use fx_base::{FactId, NoMemory, Tag};
use row_delta::{Named, Row};
use std::alloc::Global;
use std::test::Fail;
use window_gate::{Gate, GateChange, WindowKind};

const SMOKE: Named = Named {
    id: FactId(1),
    tag: Tag(4),
};

fn are_smoke(rows: &[Row], count: usize) -> bool {
    rows.len() == count
        && rows
            .iter()
            .all(|row| row.facts.as_slice() == [SMOKE].as_slice())
}

/// A change, the clock, and how many rows come and go.
type Step = (GateChange, i64, usize, usize);

/// Whether the rows come and go that are to, where a gate takes a step.
fn agrees(alloc: Global, gate: &mut Gate, step: &Step) -> Result<bool, NoMemory> {
    let delta = gate.turn(alloc, &step.0, step.1)?;
    let (come, gone) = (delta.come.as_slice(), delta.gone.as_slice());
    Ok(are_smoke(come, step.2) && are_smoke(gone, step.3))
}

const STEPS: &[Step] = &[
    (GateChange::Come(SMOKE, 0), 0, 1, 0),
    (GateChange::Clock, 9, 0, 0),
    (GateChange::Clock, 10, 0, 1),
];

#[test]
fn a_fact_leaves_a_window_of_time_with_the_clock(rt: HostRuntime) -> Result<(), Fail> {
    let mut gate = Gate::new(rt.alloc(), WindowKind::Time(10));
    for step in STEPS {
        assert!(rt; agrees(rt.alloc(), &mut gate, step)?, "{:?}", step.0);
    }
    Ok(())
}
