use desk::desk;
use fx_base::{NoMemory, Seq, Text};
use fx_io::{MemShelf, MemSink, MemSource};
use fx_store::{MemStore, SinkWithFiles};
use replay::{replay, run_rules};
use session::{DetailedSession, Session};
use std::alloc::Global;
use std::test::Fail;

const GROW: &str = "declare N v : long end\n\
    rule \"grow\" when $n : N() then insert( new N( $n.v + 1 ) ); end\n";

const SCRIPT: &[u8] = b"{\"do\":\"insert\",\"type\":\"N\",\"fields\":{\"v\":0}}\n\
    {\"do\":\"fire\"}\n";

const PRINTED: &[u8] = b"new #1 N\n\
    fire \"grow\" #1\n\
    new #2 N\n\
    fire \"grow\" #2\n\
    new #3 N\n\
    fire \"grow\" #3\n\
    new #4 N\n\
    limit 3\n";

const OBJECTS_PRINTED: &[u8] = b"{\"fields\":{\"v\":0},\"line\":1,\"new\":1,\"type\":\"N\"}\n\
    {\"done\":1}\n\
    {\"at\":0,\"facts\":[{\"fields\":{\"v\":0},\"id\":1,\"name\":\"$n\",\"type\":\"N\"}],\"fire\":\"grow\",\"line\":2,\"results\":[]}\n\
    {\"fields\":{\"v\":1},\"line\":2,\"new\":2,\"type\":\"N\"}\n\
    {\"at\":0,\"facts\":[{\"fields\":{\"v\":1},\"id\":2,\"name\":\"$n\",\"type\":\"N\"}],\"fire\":\"grow\",\"line\":2,\"results\":[]}\n\
    {\"fields\":{\"v\":2},\"line\":2,\"new\":3,\"type\":\"N\"}\n\
    {\"at\":0,\"facts\":[{\"fields\":{\"v\":2},\"id\":3,\"name\":\"$n\",\"type\":\"N\"}],\"fire\":\"grow\",\"line\":2,\"results\":[]}\n\
    {\"fields\":{\"v\":3},\"line\":2,\"new\":4,\"type\":\"N\"}\n\
    {\"limit\":3,\"line\":2}\n\
    {\"done\":2,\"fired\":3,\"pending\":true}\n";

/// Whether a run of these rules over this script with three firings ends at its limit, and prints this.
fn ends_at_its_limit(
    alloc: Global,
    rules: &str,
    script: &[u8],
    printed: &[u8],
) -> Result<bool, NoMemory> {
    let file = (
        Text::new(alloc, "RULES")?,
        Seq::from_vec(rules.as_bytes().to_vec(alloc)?),
    );
    let mut shelf = MemShelf::new(vec![in alloc; file]?, Vec::new(alloc));
    let mut script = MemSource::new(script.to_vec(alloc)?, Vec::new(alloc));
    let mut out = MemSink::new(alloc, 1024, Vec::new(alloc))?;
    let status = run_rules::<Session, MemShelf, MemSource, MemSink>(
        alloc,
        "RULES",
        3,
        &mut shelf,
        &mut script,
        &mut out,
    );
    Ok(status == 4 && out.written() == printed)
}

#[test]
fn a_rule_file_is_run_by_its_name(rt: HostRuntime) -> Result<(), Fail> {
    assert!(rt; ends_at_its_limit(rt.alloc(), GROW, SCRIPT, PRINTED)?);
    Ok(())
}

fn texts_of(alloc: Global, words: &[&str]) -> Result<Vec<String>, NoMemory> {
    let mut texts = Vec::new(alloc);
    for word in words {
        texts.push(String::from_str(alloc, word)?)?;
    }
    Ok(texts)
}

/// Whether the program prints this for these words, without a file and a script, and ends with the status 0.
fn prints(alloc: Global, words: &[&str], printed: &[u8]) -> Result<bool, NoMemory> {
    let texts = texts_of(alloc, words)?;
    let mut shelf = MemShelf::new(Vec::new(alloc), Vec::new(alloc));
    let mut script = MemSource::new(Vec::new(alloc), Vec::new(alloc));
    let mut out = MemSink::new(alloc, 1024, Vec::new(alloc))?;
    let status = replay::<Session, MemShelf, MemSource, MemSink>(
        alloc,
        &texts,
        &mut shelf,
        &mut script,
        &mut out,
    );
    Ok(status == 0 && out.written() == printed)
}

const LIVE_PRINTED: &[u8] = b"new #1 N\n\
    done 1\n\
    fire \"grow\" #1\n\
    new #2 N\n\
    fire \"grow\" #2\n\
    new #3 N\n\
    fire \"grow\" #3\n\
    new #4 N\n\
    limit 2 3\n\
    done 2\n";

/// Whether a desk with these words over these rules and this script prints this, and ends with the status 0.
fn desk_prints(
    alloc: Global,
    words: &[&str],
    rules: &str,
    script: &[u8],
    printed: &[u8],
) -> Result<bool, NoMemory> {
    let file = (
        Text::new(alloc, "RULES")?,
        Seq::from_vec(rules.as_bytes().to_vec(alloc)?),
    );
    let mut shelf = MemShelf::new(vec![in alloc; file]?, Vec::new(alloc));
    let mut script = MemSource::new(script.to_vec(alloc)?, Vec::new(alloc));
    let mut out = SinkWithFiles {
        sink: MemSink::new(alloc, 2048, Vec::new(alloc))?,
        store: MemStore::new(alloc, Vec::new(alloc), Vec::new(alloc)),
    };
    let status = desk::<
        Session,
        DetailedSession,
        MemShelf,
        MemSource,
        SinkWithFiles<MemSink, MemStore>,
    >(
        alloc,
        &texts_of(alloc, words)?,
        &mut shelf,
        &mut script,
        &mut out,
    );
    Ok(status == 0 && out.sink.written() == printed)
}

#[test]
fn a_desk_goes_on_at_the_limit_of_a_line(rt: HostRuntime) -> Result<(), Fail> {
    let words = ["--text", "--limit", "3", "--image", "I", "RULES"];
    assert!(rt; desk_prints(rt.alloc(), &words, GROW, SCRIPT, LIVE_PRINTED)?);
    Ok(())
}

const QUESTIONS: &[u8] = b"{\"do\":\"insert\",\"type\":\"N\",\"fields\":{\"v\":0}}\n\
    {\"do\":\"save\"}\n\
    {\"do\":\"facts\",\"type\":\"N\"}\n\
    {\"do\":\"counts\"}\n";

const QUESTIONS_PRINTED: &[u8] = b"{\"fields\":{\"v\":0},\"line\":1,\"new\":1,\"type\":\"N\"}\n\
    {\"done\":1}\n\
    {\"line\":2,\"saved\":true}\n\
    {\"done\":2}\n\
    {\"fact\":1,\"fields\":{\"v\":0},\"line\":3,\"type\":\"N\"}\n\
    {\"done\":3}\n\
    {\"clock\":0,\"counts\":{\"N\":1},\"firings\":0,\"floors\":{\"DEFAULT\":0},\"line\":4,\"pending\":1}\n\
    {\"done\":4}\n";

#[test]
fn a_desk_saves_and_says_what_it_keeps(rt: HostRuntime) -> Result<(), Fail> {
    let words = ["--image", "I", "RULES"];
    assert!(rt; desk_prints(rt.alloc(), &words, GROW, QUESTIONS, QUESTIONS_PRINTED)?);
    Ok(())
}

#[test]
fn a_desk_answers_in_objects(rt: HostRuntime) -> Result<(), Fail> {
    let words = ["--limit", "3", "RULES"];
    assert!(rt; desk_prints(rt.alloc(), &words, GROW, SCRIPT, OBJECTS_PRINTED)?);
    Ok(())
}

/// Of a whole load, which is too long for a case of `cases` where `rt try` runs these.
#[test]
fn a_load_is_summed_up(rt: HostRuntime) -> Result<(), Fail> {
    let printed = b"gen 1 lines 34905 fires 14905 faults 0\n";
    assert!(rt; prints(rt.alloc(), &["--gen", "1"], printed)?);
    Ok(())
}
