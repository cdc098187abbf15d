ghost use Rattle.std.specs.Prelude.{◌≤◌};

use fx_io::{
    ChunkSink, ChunkSource, Failed, FileShelf, Line, LineFault, LineReader, MemSink, MemSource,
    Shelf, ShelfFault, Sink, Source, StdSink, StdSource,
};
use std::alloc::Global;
use std::test::Fail;

/// The bytes of a line, `!` for one that is too long, `.` for the end, and the first letter of a fault.
fn letters(answer: &Result<Line, LineFault>) -> &[u8] {
    match answer {
        Ok(Line::Whole(line)) => line.as_slice(),
        Ok(Line::Long) => b"!",
        Ok(Line::End) => b".",
        Err(LineFault::ReadFault) => b"r",
        Err(LineFault::ScriptLong) => b"s",
        Err(LineFault::NoMemory) => b"n",
    }
}

/// What a reader of lines of at most 4 and scripts of at most 10 bytes answers to four calls over this script.
fn answers(alloc: Global, script: &[u8], failing: &[u64]) -> Result<Vec<u8>, Fail> {
    let mut source = MemSource::new(script.to_vec(alloc)?, failing.to_vec(alloc)?);
    let mut reader = LineReader::new(alloc, 4, 10)?;
    let mut answers = Vec::new(alloc);
    for _ in 0..4 {
        answers.extend_from_slice(letters(&reader.next_line(&mut source, &())))?;
    }
    Ok(answers)
}

/// A script, the calls that fail, and the answers.
const SCRIPTS: &[(&[u8], &[u64], &[u8])] = &[
    (b"ab\nabcde\nx", &[], b"ab!x."),
    (b"aaaaaaaaaaa", &[], b"ssss"),
    (b"ab\nx", &[1], b"rrrr"),
    (b"ab\nx", &[2], b"abrrr"),
];

#[test]
fn lines_of_a_script(rt: HostRuntime) -> Result<(), Fail> {
    for row in SCRIPTS {
        assert_eq!(rt; answers(rt.alloc(), row.0, row.1)?.as_slice(), row.2);
    }
    Ok(())
}

#[test]
fn files_of_the_machine(rt: HostRuntime) {
    let mut buf = [1u8; 7];
    let mut shelf = FileShelf::new(&rt);
    assert_eq!(rt;
        shelf.read_file("no such file", 0, &mut buf),
        Err(ShelfFault::Missing)
    );
    assert_eq!(rt; shelf.read_file(".", 0, &mut buf), Err(ShelfFault::Failed));
    assert_eq!(rt; shelf.read_file("/proc/version", 6, &mut buf), Ok(7));
    assert_eq!(rt; buf, *b"version");
}

#[test]
fn streams_of_the_machine(rt: HostRuntime) {
    let mut buf = [1u8; 7];
    assert_eq!(rt; StdSource::new(&rt).read(&(), &mut buf), Ok(0));
    assert_eq!(rt; StdSink::new(&rt).write(b"a line\n"), Ok(7));
}

#[test]
fn a_sink_of_three_bytes(rt: HostRuntime) -> Result<(), Fail> {
    let mut sink = MemSink::new(rt.alloc(), 3, Vec::new(rt.alloc()))?;
    assert_eq!(rt; sink.write(b"abcd"), Ok(3));
    assert!(rt; sink.write(b"d").is_err());
    assert_eq!(rt; sink.written(), b"abc".as_slice());
    Ok(())
}

/// What a source that gives at most so many bytes a call gives in four calls of at most three bytes, with a dot behind each.
fn pieces(alloc: Global, bytes: &[u8], most: usize) -> Result<Vec<u8>, Fail>
    requires { 1 ≤ most }
{
    let mut source = ChunkSource::new(bytes.to_vec(alloc)?, most);
    let mut buf = [0u8; 3];
    let mut pieces = Vec::new(alloc);
    for _ in 0..4 {
        if let Ok(n) = source.read(&(), &mut buf) {
            pieces.extend_from_slice(&buf[..n])?;
            pieces.push(b'.')?;
        }
    }
    Ok(pieces)
}

#[test]
fn a_source_gives_so_many_bytes_a_call(rt: HostRuntime) -> Result<(), Fail> {
    assert_eq!(rt;
        pieces(rt.alloc(), b"abcde", 2)?.as_slice(),
        b"ab.cd.e..".as_slice()
    );
    assert_eq!(rt;
        pieces(rt.alloc(), b"abcde", 9)?.as_slice(),
        b"abc.de...".as_slice()
    );
    Ok(())
}

#[test]
fn a_sink_takes_so_many_bytes_a_call(rt: HostRuntime) -> Result<(), Fail> {
    let mut sink = ChunkSink::new(rt.alloc(), 3, 2)?;
    let mut taken = Vec::new(rt.alloc());
    for _ in 0..3 {
        taken.push(sink.write(b"abc"))?;
    }
    assert_eq!(rt; taken.as_slice(), [Ok(2), Ok(1), Err(Failed)].as_slice());
    assert_eq!(rt; sink.written(), b"aba".as_slice());
    Ok(())
}
