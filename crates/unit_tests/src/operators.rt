ghost use Rattle.std.specs.Prelude.{◌^◌, IsTrue};
ghost use Rattle.std.specs.List.{All};
ghost use Rattle.temporal_ops.specs.Edges.{IsWithin};

use fx_base::{Copies, Times};
use std::alloc::Global;
use temporal_ops::{Op, OpFault, OpWord, Window, possible_start};

/// The start and the end of an event.
type Event = (i32, i32);

/// A word with its parameters, and of the events beside the event from 100 to 200 some of which it holds, and some of which it
/// does not hold. The first ones lie at the bounds of its row, the others one beside them.
type Row = (OpWord, &'static [i64], &'static [Event], &'static [Event]);

const ROWS: &[Row] = &[
    // the two parameters of `after` and `before` stand in either order
    (OpWord::After, &[], &[(201, 250)], &[(200, 250)]),
    (OpWord::After, &[5], &[(205, 250)], &[(204, 250)]),
    (OpWord::After, &[-5], &[(195, 250)], &[(194, 250)]),
    (
        OpWord::After,
        &[5, 9],
        &[(205, 250), (209, 250)],
        &[(204, 250), (210, 250)],
    ),
    (
        OpWord::After,
        &[9, 5],
        &[(205, 250), (209, 250)],
        &[(204, 250), (210, 250)],
    ),
    (
        OpWord::After,
        &[-5, -9],
        &[(191, 250), (195, 250)],
        &[(190, 250), (196, 250)],
    ),
    (OpWord::Before, &[], &[(50, 99)], &[(50, 100)]),
    (OpWord::Before, &[5], &[(50, 95)], &[(50, 96)]),
    (OpWord::Before, &[-5], &[(50, 105)], &[(50, 106)]),
    (
        OpWord::Before,
        &[5, 9],
        &[(50, 91), (50, 95)],
        &[(50, 90), (50, 96)],
    ),
    (
        OpWord::Before,
        &[9, 5],
        &[(50, 91), (50, 95)],
        &[(50, 90), (50, 96)],
    ),
    (
        OpWord::Before,
        &[-5, -9],
        &[(50, 105), (50, 109)],
        &[(50, 104), (50, 110)],
    ),
    // those of the other words do not
    (
        OpWord::Coincides,
        &[],
        &[(100, 200)],
        &[(99, 200), (101, 200), (100, 199), (100, 201)],
    ),
    (
        OpWord::Coincides,
        &[5],
        &[(95, 195), (105, 205)],
        &[(94, 200), (106, 200), (100, 194), (100, 206)],
    ),
    (
        OpWord::Coincides,
        &[5, 9],
        &[(95, 191), (105, 209)],
        &[(94, 200), (106, 200), (100, 190), (100, 210)],
    ),
    (
        OpWord::Coincides,
        &[9, 5],
        &[(91, 195), (109, 205)],
        &[(90, 200), (110, 200), (100, 194), (100, 206)],
    ),
    (
        OpWord::During,
        &[],
        &[(101, 199)],
        &[(100, 199), (101, 200)],
    ),
    (
        OpWord::During,
        &[5],
        &[(101, 199), (105, 195)],
        &[(100, 199), (106, 199), (101, 200), (101, 194)],
    ),
    (
        OpWord::During,
        &[5, 9],
        &[(105, 195), (109, 191)],
        &[(104, 195), (110, 195), (105, 196), (105, 190)],
    ),
    (
        OpWord::During,
        &[9, 5],
        &[],
        &[(105, 195), (109, 191), (107, 193)],
    ),
    (
        OpWord::During,
        &[5, 9, 2, 3],
        &[(105, 198), (109, 197)],
        &[(104, 198), (110, 198), (105, 199), (105, 196)],
    ),
    (
        OpWord::During,
        &[5, 9, 3, 2],
        &[],
        &[(105, 198), (105, 197)],
    ),
    (
        OpWord::During,
        &[9, 5, 2, 3],
        &[],
        &[(105, 198), (109, 198)],
    ),
    (
        OpWord::Includes,
        &[],
        &[(99, 201)],
        &[(100, 201), (99, 200)],
    ),
    (
        OpWord::Includes,
        &[5],
        &[(99, 201), (95, 205)],
        &[(100, 201), (94, 201), (99, 200), (99, 206)],
    ),
    (
        OpWord::Includes,
        &[5, 9],
        &[(95, 205), (91, 209)],
        &[(96, 205), (90, 205), (95, 204), (95, 210)],
    ),
    (
        OpWord::Includes,
        &[9, 5],
        &[],
        &[(95, 205), (91, 209), (93, 207)],
    ),
    (
        OpWord::Includes,
        &[5, 9, 2, 3],
        &[(95, 202), (91, 203)],
        &[(96, 202), (90, 202), (95, 201), (95, 204)],
    ),
    (
        OpWord::Finishes,
        &[],
        &[(101, 200)],
        &[(100, 200), (101, 199), (101, 201)],
    ),
    (
        OpWord::Finishes,
        &[5],
        &[(101, 195), (101, 205)],
        &[(100, 200), (101, 194), (101, 206)],
    ),
    (
        OpWord::FinishedBy,
        &[],
        &[(99, 200)],
        &[(100, 200), (99, 199), (99, 201)],
    ),
    (
        OpWord::FinishedBy,
        &[5],
        &[(99, 195), (99, 205)],
        &[(100, 200), (99, 194), (99, 206)],
    ),
    (
        OpWord::Starts,
        &[],
        &[(100, 199)],
        &[(100, 200), (99, 199), (101, 199)],
    ),
    (
        OpWord::Starts,
        &[5],
        &[(95, 199), (105, 199)],
        &[(100, 200), (94, 199), (106, 199)],
    ),
    (
        OpWord::StartedBy,
        &[],
        &[(100, 201)],
        &[(100, 200), (99, 201), (101, 201)],
    ),
    (
        OpWord::StartedBy,
        &[5],
        &[(95, 201), (105, 201)],
        &[(100, 200), (94, 201), (106, 201)],
    ),
    (OpWord::Meets, &[], &[(50, 100)], &[(50, 99), (50, 101)]),
    (
        OpWord::Meets,
        &[5],
        &[(50, 95), (50, 105)],
        &[(50, 94), (50, 106)],
    ),
    (OpWord::MetBy, &[], &[(200, 250)], &[(199, 250), (201, 250)]),
    (
        OpWord::MetBy,
        &[5],
        &[(195, 250), (205, 250)],
        &[(194, 250), (206, 250)],
    ),
    (
        OpWord::Overlaps,
        &[],
        &[(99, 101), (99, 199)],
        &[(100, 101), (99, 100), (99, 200)],
    ),
    (
        OpWord::Overlaps,
        &[5],
        &[(99, 101), (99, 105)],
        &[(100, 105), (99, 100), (99, 106)],
    ),
    (
        OpWord::Overlaps,
        &[5, 9],
        &[(99, 105), (99, 109)],
        &[(100, 105), (99, 104), (99, 110)],
    ),
    (
        OpWord::Overlaps,
        &[99, 150],
        &[(99, 199)],
        &[(99, 198), (99, 200)],
    ),
    (
        OpWord::Overlaps,
        &[9, 5],
        &[],
        &[(99, 105), (99, 109), (99, 107)],
    ),
    (
        OpWord::OverlappedBy,
        &[],
        &[(101, 201), (199, 201)],
        &[(100, 201), (200, 201), (199, 200)],
    ),
    (
        OpWord::OverlappedBy,
        &[5],
        &[(195, 201), (199, 201)],
        &[(200, 201), (194, 201), (199, 200)],
    ),
    (
        OpWord::OverlappedBy,
        &[5, 9],
        &[(191, 201), (195, 201)],
        &[(190, 201), (196, 201), (195, 200)],
    ),
    (
        OpWord::OverlappedBy,
        &[9, 5],
        &[],
        &[(191, 201), (195, 201), (193, 201)],
    ),
];

/// A word with parameters that it does not take.
const REFUSED: &[(OpWord, &[i64], OpFault)] = &[
    (OpWord::After, &[5, 9, 2], OpFault::ParamCount),
    (OpWord::After, &[5, 9, 2, 3], OpFault::ParamCount),
    (OpWord::After, &[5, 9, 2, 3, 1], OpFault::ParamCount),
    (OpWord::Before, &[5, 9, 2], OpFault::ParamCount),
    (OpWord::Before, &[5, 9, 2, 3], OpFault::ParamCount),
    (OpWord::Before, &[5, 9, 2, 3, 1], OpFault::ParamCount),
    (OpWord::Coincides, &[5, 9, 2], OpFault::ParamCount),
    (OpWord::Coincides, &[5, 9, 2, 3], OpFault::ParamCount),
    (OpWord::Coincides, &[5, 9, 2, 3, 1], OpFault::ParamCount),
    (OpWord::Overlaps, &[5, 9, 2], OpFault::ParamCount),
    (OpWord::Overlaps, &[5, 9, 2, 3], OpFault::ParamCount),
    (OpWord::Overlaps, &[5, 9, 2, 3, 1], OpFault::ParamCount),
    (OpWord::OverlappedBy, &[5, 9, 2], OpFault::ParamCount),
    (OpWord::OverlappedBy, &[5, 9, 2, 3], OpFault::ParamCount),
    (OpWord::OverlappedBy, &[5, 9, 2, 3, 1], OpFault::ParamCount),
    (OpWord::During, &[5, 9, 2], OpFault::ParamCount),
    (OpWord::During, &[5, 9, 2, 3, 1], OpFault::ParamCount),
    (OpWord::Includes, &[5, 9, 2], OpFault::ParamCount),
    (OpWord::Includes, &[5, 9, 2, 3, 1], OpFault::ParamCount),
    (OpWord::Finishes, &[5, 9], OpFault::ParamCount),
    (OpWord::Finishes, &[5, 9, 2, 3], OpFault::ParamCount),
    (OpWord::FinishedBy, &[5, 9], OpFault::ParamCount),
    (OpWord::FinishedBy, &[5, 9, 2, 3], OpFault::ParamCount),
    (OpWord::Starts, &[5, 9], OpFault::ParamCount),
    (OpWord::Starts, &[5, 9, 2, 3], OpFault::ParamCount),
    (OpWord::StartedBy, &[5, 9], OpFault::ParamCount),
    (OpWord::StartedBy, &[5, 9, 2, 3], OpFault::ParamCount),
    (OpWord::Meets, &[5, 9], OpFault::ParamCount),
    (OpWord::Meets, &[5, 9, 2, 3], OpFault::ParamCount),
    (OpWord::MetBy, &[5, 9], OpFault::ParamCount),
    (OpWord::MetBy, &[5, 9, 2, 3], OpFault::ParamCount),
    (OpWord::Meets, &[-1, 5], OpFault::ParamCount),
    (OpWord::Coincides, &[-1], OpFault::Negative),
    (OpWord::During, &[-1], OpFault::Negative),
    (OpWord::Includes, &[-1], OpFault::Negative),
    (OpWord::Finishes, &[-1], OpFault::Negative),
    (OpWord::FinishedBy, &[-1], OpFault::Negative),
    (OpWord::Starts, &[-1], OpFault::Negative),
    (OpWord::StartedBy, &[-1], OpFault::Negative),
    (OpWord::Meets, &[-1], OpFault::Negative),
    (OpWord::MetBy, &[-1], OpFault::Negative),
    (OpWord::Overlaps, &[-1], OpFault::Negative),
    (OpWord::OverlappedBy, &[-1], OpFault::Negative),
    (OpWord::Coincides, &[5, -1], OpFault::Negative),
    (OpWord::During, &[5, -1], OpFault::Negative),
    (OpWord::Includes, &[5, -1], OpFault::Negative),
    (OpWord::Overlaps, &[5, -1], OpFault::Negative),
    (OpWord::OverlappedBy, &[5, -1], OpFault::Negative),
    (OpWord::During, &[5, 9, 2, -1], OpFault::Negative),
    (OpWord::Includes, &[5, 9, 2, -1], OpFault::Negative),
];

fn times(points: Event) -> Times {
    Times {
        start: i64::from(points.0),
        end: i64::from(points.1),
    }
}

fn is_small(param: i64) -> bool
    ensures { IsTrue result → IsWithin (2 ^ 53) param }
{
    -9_000_000 <= param && param <= 9_000_000
}

/// Whether operators may have these parameters.
fn are_small(params: &[i64]) -> bool
    ensures { IsTrue result → All (IsWithin (2 ^ 53)) params.now }
{
    params.iter().all(|param| is_small(*param))
}

/// The operator of a word; of numbers that are not small there is none.
fn operator(word: OpWord, params: &[i64]) -> Option<Result<Op, OpFault>> {
    if are_small(params) {
        Some(Op::of(word, params))
    } else {
        None
    }
}

/// Whether it holds of all these events, or of none of them.
fn all_are(op: &Op, events: &[Event], wanted: bool) -> bool {
    events.iter().all(|event| op.holds(times(*event), times((100, 200))) == wanted)
}

fn agrees(row: &Row) -> bool {
    match operator(row.0, row.1) {
        Some(Ok(op)) => all_are(&op, row.2, true) && all_are(&op, row.3, false),
        _ => false,
    }
}

#[test]
fn operators_hold_as_their_table_says(rt: HostRuntime) {
    for row in ROWS {
        assert!(rt; agrees(row), "{:?} {:?}", row.0, row.1);
    }
}

fn is_refused(word: OpWord, params: &[i64], fault: OpFault) -> bool {
    matches!(operator(word, params), Some(Err(found)) if found == fault)
}

#[test]
fn parameters_without_a_row_are_refused(rt: HostRuntime) {
    for row in REFUSED {
        assert!(rt; is_refused(row.0, row.1, row.2), "{:?} {:?}", row.0, row.1);
    }
}

/// Whether these are the possible starts of an event beside which the operator stands with the event from 0 to 0.
fn has_starts(word: OpWord, params: &[i64], point: bool, window: Window) -> bool {
    match operator(word, params) {
        Some(Ok(op)) => possible_start(&[(op, times((0, 0)))], point) == window,
        _ => false,
    }
}

/// A word with parameters, whether the possible events end where they start, and their starts.
const WINDOWS: &[(OpWord, &[i64], bool, Window)] = &[
    (OpWord::After, &[0, 10_000], true, Window::UpTo(10_000)),
    (OpWord::After, &[], true, Window::Unbounded),
    (OpWord::Includes, &[], false, Window::UpTo(-1)),
    (OpWord::Includes, &[], true, Window::Never),
];

#[test]
fn possible_events_have_their_latest_start(rt: HostRuntime) {
    for row in WINDOWS {
        assert!(rt; has_starts(row.0, row.1, row.2, row.3), "{:?}", row.0);
    }
}

/// Whether an operator is equal to its copy, and has so many edges.
fn is_copied(alloc: Global, op: &Op, edges: usize) -> bool {
    match op.copy(alloc) {
        Ok(copy) => copy == *op && copy.edges().count == edges,
        Err(_) => false,
    }
}

#[test]
fn an_operator_is_copied(rt: HostRuntime) {
    if let Some(Ok(op)) = operator(OpWord::After, &[0, 10_000]) {
        assert!(rt; is_copied(rt.alloc(), &op, 2));
    }
}
