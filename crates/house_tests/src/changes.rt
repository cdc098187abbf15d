use desk::desk;
use fx_base::{NoMemory, Seq, Text};
use fx_io::{MemShelf, MemSink, MemSource};
use fx_store::{MemStore, SinkWithFiles};
use session::{DetailedSession, Session};
use std::alloc::Global;
use std::test::Fail;

const BIG: &str = "declare Paid @role( event ) @expires( 1h ) cents : long end\n\
    rule \"big\" when Paid( cents > 100 ) then end\n";

const BIG_AND_HUGE: &str = "declare Paid @role( event ) @expires( 1h ) cents : long end\n\
    rule \"big\" when Paid( cents > 100 ) then end\n\
    rule \"huge\" when Paid( cents > 1000 ) then end\n";

const HUGE: &str = "declare Paid @role( event ) @expires( 1h ) cents : long end\n\
    rule \"huge\" when Paid( cents > 1000 ) then end\n";

const EDITED: &str = "declare Paid @role( event ) @expires( 1h ) cents : long end\n\
    rule \"big\" when Paid( cents > 101 ) then end\n";

const WIDER: &str = "declare Paid @role( event ) @expires( 1h ) cents : long by : String end\n\
    rule \"big\" when Paid( cents > 100 ) then end\n";

const PAIR: &str = "declare Ask @role( event ) end declare Paid @role( event ) end\n\
    rule \"pair\" when $a : Ask() Paid( this after[0s,10s] $a ) then end\n";

const PAIR_AND_NONE: &str = "declare Ask @role( event ) end declare Paid @role( event ) end\n\
    rule \"pair\" when $a : Ask() Paid( this after[0s,10s] $a ) then end\n\
    rule \"none\" when $a : Ask() not( Paid( this after[0s,10s] $a ) ) then end\n";

const PAIR_AND_LONG: &str = "declare Ask @role( event ) end declare Paid @role( event ) end\n\
    rule \"pair\" when $a : Ask() Paid( this after[0s,10s] $a ) then end\n\
    rule \"long\" when $p : Paid() Ask( this after[0s,1h] $p ) then end\n";

const SILENT: &str = "declare Ask @role( event ) end declare Paid @role( event ) end\n\
    rule \"silent\" when $a : Ask() not( Paid( this after[0s,10s] $a ) ) then end\n";

const SILENT_AND_ASKED: &str = "declare Ask @role( event ) end declare Paid @role( event ) end\n\
    rule \"asked\" when Ask() then end\n\
    rule \"silent\" when $a : Ask() not( Paid( this after[0s,10s] $a ) ) then end\n";

const PAY: &[u8] = b"{\"do\":\"insert\",\"type\":\"Paid\",\"fields\":{\"cents\":1500}}\n";

const PAY_AND_FIRE: &[u8] = b"{\"do\":\"insert\",\"type\":\"Paid\",\"fields\":{\"cents\":1500}}\n\
    {\"do\":\"fire\"}\n";

const ASK: &[u8] = b"{\"do\":\"insert\",\"type\":\"Ask\",\"fields\":{}}\n";

const FIRE: &[u8] = b"{\"do\":\"fire\"}\n";

const FIRE_PAY_FIRE: &[u8] = b"{\"do\":\"fire\"}\n\
    {\"do\":\"insert\",\"type\":\"Paid\",\"fields\":{\"cents\":2000}}\n\
    {\"do\":\"fire\"}\n";

const WAIT_AND_FIRE: &[u8] = b"{\"do\":\"at\",\"ms\":10001}\n\
    {\"do\":\"fire\"}\n";

/// What a desk answers, and its files behind it.
#[derive(Drop)]
struct Answer {
    status: u8,
    printed: Vec<u8>,
    files: Vec<(Text, Seq<u8>)>,
}

fn texts_of(alloc: Global, words: &[&str]) -> Result<Vec<String>, NoMemory> {
    let mut texts = Vec::new(alloc);
    for word in words {
        texts.push(String::from_str(alloc, word)?)?;
    }
    Ok(texts)
}

/// Runs a desk with these words over these rules, with these files beside them, and this script.
fn run(
    alloc: Global,
    words: &[&str],
    rules: &str,
    files: Vec<(Text, Seq<u8>)>,
    script: &[u8],
) -> Result<Answer, NoMemory> {
    let file = (
        Text::new(alloc, "RULES")?,
        Seq::from_vec(rules.as_bytes().to_vec(alloc)?),
    );
    let mut files = files;
    files.push(file)?;
    let mut shelf = MemShelf::new(files, Vec::new(alloc));
    let mut script = MemSource::new(script.to_vec(alloc)?, Vec::new(alloc));
    let mut out = SinkWithFiles {
        sink: MemSink::new(alloc, 2048, Vec::new(alloc))?,
        store: MemStore::new(alloc, Vec::new(alloc), Vec::new(alloc)),
    };
    let status = desk::<
        Session,
        DetailedSession,
        MemShelf,
        MemSource,
        SinkWithFiles<MemSink, MemStore>,
    >(
        alloc,
        &texts_of(alloc, words)?,
        &mut shelf,
        &mut script,
        &mut out,
    );
    Ok(Answer {
        status,
        printed: out.sink.written().to_vec(alloc)?,
        files: out.store.into_files(),
    })
}

/// Whether a desk that begins over the old rules and goes on over others answers this then.
fn goes_on(
    alloc: Global,
    (old, first): (&str, &[u8]),
    (new, second): (&str, &[u8]),
    status: u8,
    printed: &[u8],
) -> Result<bool, NoMemory> {
    let words = ["--text", "--image", "I", "RULES"];
    let before = run(alloc, &words, old, Vec::new(alloc), first)?;
    let answer = run(alloc, &words, new, before.files, second)?;
    Ok(before.status == 0 && answer.status == status && answer.printed.as_slice() == printed)
}

const STAYS_AND_NEW: &[u8] = b"rule \"big\" stays\n\
    rule \"huge\" new\n\
    done 3\n\
    new #2 Paid\n\
    done 4\n\
    fire \"big\" #2\n\
    fire \"huge\" #2\n\
    done 5\n";

#[test]
fn rules_that_stay_and_new_ones_go_on(rt: HostRuntime) -> Result<(), Fail> {
    let alloc = rt.alloc();
    let fired = (BIG, PAY_AND_FIRE);
    assert!(rt;
        goes_on(
            alloc,
            fired,
            (BIG_AND_HUGE, FIRE_PAY_FIRE),
            0,
            STAYS_AND_NEW
        )?
    );
    let pending = b"rule \"big\" stays\nrule \"huge\" new\nfire \"big\" #1\ndone 2\n";
    assert!(rt; goes_on(alloc, (BIG, PAY), (BIG_AND_HUGE, FIRE), 0, pending)?);
    Ok(())
}

#[test]
fn an_edited_rule_is_a_new_one(rt: HostRuntime) -> Result<(), Fail> {
    let alloc = rt.alloc();
    let answer =
        b"rule \"big\" new\nrule \"big\" gone\ndone 3\nnew #2 Paid\ndone 4\nfire \"big\" #2\ndone 5\n";
    assert!(rt;
        goes_on(
            alloc,
            (BIG, PAY_AND_FIRE),
            (EDITED, FIRE_PAY_FIRE),
            0,
            answer
        )?
    );
    Ok(())
}

#[test]
fn other_rules_are_refused_in_order(rt: HostRuntime) -> Result<(), Fail> {
    let alloc = rt.alloc();
    let pending = b"refused checkpoint Pending\n";
    assert!(rt; goes_on(alloc, (BIG, PAY), (HUGE, FIRE), 9, pending)?);
    let types = b"refused checkpoint OtherTypes\n";
    assert!(rt; goes_on(alloc, (BIG, PAY), (WIDER, FIRE), 9, types)?);
    let longer = b"refused checkpoint Longer Paid\n";
    assert!(rt; goes_on(alloc, (PAIR, ASK), (PAIR_AND_LONG, FIRE), 9, longer)?);
    let forgotten = b"refused checkpoint Forgotten Paid\n";
    assert!(rt; goes_on(alloc, (PAIR, ASK), (PAIR_AND_NONE, FIRE), 9, forgotten)?);
    Ok(())
}

#[test]
fn what_waits_goes_on_waiting(rt: HostRuntime) -> Result<(), Fail> {
    let alloc = rt.alloc();
    let answer = b"rule \"asked\" new\nrule \"silent\" stays\ndone 2\nfire \"silent\" #1\ndone 3\n";
    assert!(rt;
        goes_on(
            alloc,
            (SILENT, ASK),
            (SILENT_AND_ASKED, WAIT_AND_FIRE),
            0,
            answer
        )?
    );
    Ok(())
}
