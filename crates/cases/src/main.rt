//! Runs the cases that standard input holds: each is a rule file and a script between lines that begin with `=== `, with what is set for
//! it, if anything is (docs/CHANGING.md, *A case*). The top call runs them over objects in memory, and the lines that each prints and its
//! status are written. `stdin` has the cases, and `stdout` what they are to print.
#![tactic(auto)]

mod case;
mod cuts;
mod each;
mod failing;
mod running;
mod settings;
mod stopped;
mod waiting;

use case::Case;
use fx_base::limits::LINE_MAX;
use fx_io::{Line, LineReader, Sink, StdSink, StdSource};
use settings::MOST;
use std::alloc::Global;
use std::process::ExitCode;
use stopped::Stopped;

fn run_all<R: Input, K: Sink>(
    alloc: Global,
    source: &mut StdSource<R>,
    out: &mut K,
) -> Result<(), Stopped> {
    let mut reader = LineReader::new(alloc, LINE_MAX, MOST as u64)?;
    let mut case = Case::new(alloc)?;
    for _ in 0..u64::MAX {
        match reader.next_line(source, &()) {
            Ok(Line::Whole(line)) => case = case.with_line(alloc, line.as_slice(), out)?,
            Ok(Line::End) => return Ok(()),
            _ => return Err(Stopped),
        }
    }
    Ok(())
}

fn main(rt: HostRuntime) -> ExitCode {
    let mut source = StdSource::new(&rt);
    let mut out = StdSink::new(&rt);
    match run_all(rt.alloc(), &mut source, &mut out) {
        Ok(()) => ExitCode::from(0),
        Err(_) => ExitCode::from(1),
    }
}
