use script_read::{Scratch, command, command_with};
use std::test::Fail;

/// Lines, and the commands that they ask for. What other lines are told is shown by the cases of runs.
const LINES: &[(&[u8], &str)] = &[
    (b"", "Err(BadJson)"),
    (b"{\"do\":\"\xff\"}", "Err(BadJson)"),
    (b"{\"do\":\"fly\"}", "Err(BadCommand)"),
    (b"{\"do\":\"fire\"}", "Ok(Fire(None))"),
    (b"{\"max\":2,\"do\":\"fire\"}", "Ok(Fire(Some(2)))"),
    (b"{\"do\":\"held\"}", "Ok(Held)"),
    (b"{\"do\":\"begin\"}", "Ok(Change(Begin))"),
    (b"{\"do\":\"begin\",\"ms\":0}", "Err(BadCommand)"),
    (
        b"{\"do\":\"at\",\"ms\":9223372036854775807}",
        "Ok(Change(At(9223372036854775807)))",
    ),
    (
        b"{\"do\":\"advance\",\"by\":-9223372036854775808}",
        "Ok(Change(Advance(-9223372036854775808)))",
    ),
    (
        b"{\"do\":\"retract\",\"type\":\"Item\",\"id\":1}",
        "Ok(Change(Retract { ty: \"Item\", id: FactId(1) }))",
    ),
    (
        b"{\"do\":\"modify\",\"type\":\"Item\",\"id\":1,\"fields\":{\"b\":-12,\"a\":null}}",
        "Ok(Change(Modify { ty: \"Item\", id: FactId(1), fields: [(\"a\", Other), (\"b\", Int(-12))] }))",
    ),
    (
        b"{\"fields\":{\"open\":true,\"name\":\"tea\"},\"entry\":\"X\",\"type\":\"Item\",\"do\":\"insert\"}",
        "Ok(Change(Insert { ty: \"Item\", entry: Some(\"X\"), fields: [(\"name\", Text(\"tea\")), (\"open\", Bool(true))] }))",
    ),
];

#[test]
fn lines_ask_for_commands(rt: HostRuntime) -> Result<(), Fail> {
    for row in LINES {
        let answer = format!(in rt.alloc(); "{:?}", command(rt.alloc(), row.0))?;
        assert_eq!(rt; answer.as_str(), row.1);
    }
    Ok(())
}

#[test]
fn lines_ask_for_the_same_with_memory_that_is_kept(rt: HostRuntime) -> Result<(), Fail> {
    let mut scratch = Scratch::new(rt.alloc());
    for row in LINES {
        let read = command_with(rt.alloc(), row.0, &mut scratch);
        let answer = format!(in rt.alloc(); "{:?}", read)?;
        assert_eq!(rt; answer.as_str(), row.1);
    }
    Ok(())
}
