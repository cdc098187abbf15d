use gen_load::generate;
use std::test::Fail;

#[test]
fn the_load_1_has_its_rules_and_lines(rt: HostRuntime) -> Result<(), Fail> {
    let generated = generate(rt.alloc(), 1)?;
    let rules = generated.rules.as_slice();
    assert!(rt; rules.starts_with(b"declare Card @role( event ) acct : long amount : long end\n"));
    assert!(rt; rules.ends_with(b"over window:time( 20s ), count( $m ) ) then end\n"));
    let script = generated.script.as_slice();
    let first: &[u8] = br#"{"do":"advance","by":838}
{"do":"insert","type":"Card","fields":{"acct":8,"amount":515}}
{"do":"fire"}
{"do":"advance","by":51}
{"do":"insert","type":"Card","fields":{"acct":27,"amount":419}}
{"do":"fire"}
"#;
    assert!(rt; script.starts_with(first));
    assert_eq!(rt; script.iter().filter(|b| **b == b'\n').count(), 60_000);
    assert!(rt; script.len() < 4 * 1024 * 1024);
    Ok(())
}
