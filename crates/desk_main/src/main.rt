//! The program `desk`: it makes the real shelf, script and output with its files, and hands them to the top call.
//! What it is given by the machine is trusted; all that it answers is the top call's.
#![tactic(auto)]

use fx_io::{FileShelf, StdSink, StdSource};
use fx_store::{FileStore, SinkWithFiles};
use std::env;
use std::io::{self, ErrorKind};
use std::process::ExitCode;

/// The status where the words cannot be had from the machine.
const NO_WORDS: u8 = 10;

// The words behind the program's own name. Words of which one is no UTF-8 are faulty as a whole, and stand for none.
fn words(rt: &HostRuntime) -> io::Result<Vec<String>> {
    let args = match env::args(rt) {
        Ok(args) => args,
        Err(fault) if fault.kind() == ErrorKind::InvalidData => return Ok(Vec::new(rt.alloc())),
        Err(fault) => return Err(fault),
    };
    let mut words = Vec::new(rt.alloc());
    for word in args.skip(1) {
        words.push(word)?;
    }
    Ok(words)
}

fn main(rt: HostRuntime) -> ExitCode {
    let Ok(words) = words(&rt) else {
        return ExitCode::from(NO_WORDS);
    };
    let mut shelf = FileShelf::new(&rt);
    let mut script = StdSource::new(&rt);
    let mut out = SinkWithFiles {
        sink: StdSink::new(&rt),
        store: FileStore::new(&rt, rt.alloc()),
    };
    let status = sozhipen::desk(rt.alloc(), &words, &mut shelf, &mut script, &mut out);
    ExitCode::from(status)
}
