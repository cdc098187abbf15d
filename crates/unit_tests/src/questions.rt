use desk_read::question;
use std::test::Fail;

/// Lines of a live script, and what they ask beside the commands of every script.
const LINES: &[(&[u8], &str)] = &[
    (b"", "Ok(None)"),
    (b"{\"do\":\"\xff\"}", "Ok(None)"),
    (b"{\"do\":\"held\"}", "Ok(None)"),
    (b"{\"do\":\"save\"}", "Ok(Some(Save))"),
    (b"{\"do\":\"save\",\"line\":1}", "Ok(None)"),
    (b"{\"do\":\"facts\"}", "Ok(Some(Facts(None)))"),
    (
        b" { \"type\" : \"Item\" , \"do\" : \"facts\" } ",
        "Ok(Some(Facts(Some(\"Item\"))))",
    ),
    (b"{\"do\":\"facts\",\"type\":1}", "Ok(None)"),
    (b"{\"do\":\"facts\",\"id\":1}", "Ok(None)"),
    (b"{\"do\":\"counts\"}", "Ok(Some(Counts))"),
    (b"{\"do\":\"counts\",\"type\":\"Item\"}", "Ok(None)"),
];

#[test]
fn lines_have_questions(rt: HostRuntime) -> Result<(), Fail> {
    for row in LINES {
        let answer = format!(in rt.alloc(); "{:?}", question(rt.alloc(), row.0))?;
        assert_eq!(rt; answer.as_str(), row.1);
    }
    Ok(())
}
