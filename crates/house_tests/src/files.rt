use drl_parse::{ParseFault, parse};
use drl_show::show;
use fx_base::NoMemory;
use std::alloc::{AllocError, Global};
use std::test::Fail;

/// Rule files as they are written, and as they are shown.
const SHOWN: &[(&str, &str)] = &[
    ("", ""),
    (" \t\r\n# nothing\n/* at\nall */", ""),
    (
        "package a.b;\nimport c import d.*;\n\ndialect 'x'",
        "package a . b\nimport c\nimport d . *\ndialect \"x\"\n",
    ),
    (
        "declare Item\n  price : long name : String\nend declare entry end",
        "declare Item price : long name : String end\ndeclare entry end\n",
    ),
    (
        "declare Reading @role(event) @timestamp(at) @duration(length) @expires(1h) value : long end",
        "declare Reading @ role ( event ) @ timestamp ( at ) @ duration ( length ) @ expires ( 3600000 ) value : long end\n",
    ),
    (
        "declare A @role(fact) @expires(-1m) end",
        "declare A @ role ( fact ) @ expires ( - 60000 ) end\n",
    ),
    (
        "declare Rate @reference @role(fact) code : String end",
        "declare Rate @ reference @ role ( fact ) code : String end\n",
    ),
    (
        "declare entry-point \"the end\" end declare entry - point late @lateness(2s500ms) end",
        "declare entry - point \"the end\" end\ndeclare entry - point \"late\" @ lateness ( 2500 ) end\n",
    ),
    (
        "declare T extends U @role(event) v : long end rule r when A() (B() or (not C() D() or exists E())) then end",
        "declare T extends U @ role ( event ) v : long end\nrule \"r\" when A ( ) ( B ( ) or ( not ( C ( ) ) D ( ) or exists ( E ( ) ) ) ) then end\n",
    ),
    (
        "rule \"the end\" when A() then end rule r salience -5, dialect \"java\" salience 007 when A() B() then end",
        "rule \"the end\" when A ( ) then end\nrule \"r\" salience - 5 dialect \"java\" salience 7 when A ( ) B ( ) then end\n",
    ),
    (
        "rule r when not ( $o : Order( $id : id, a == 1 && b != -2 || c < $x.d ) ) then end",
        "rule \"r\" when not ( $o : Order ( $id : id , a == 1 && b != - 2 || c < $x . d ) ) then end\n",
    ),
    (
        "rule r when exists T( k in ( \"x\", true, own, $v ) ) then end",
        "rule \"r\" when exists ( T ( k in ( \"x\" , true , own , $v ) ) ) then end\n",
    ),
    (
        "rule r when E( this after[ -5, 1s ] $a, this metby $b ) over window:time( 2m ) from entry-point X then end",
        "rule \"r\" when E ( this after [ - 5 , 1000 ] $a , this metby $b ) over window : time ( 120000 ) from entry - point \"X\" then end\n",
    ),
    (
        "rule r when E( ) over window:length( 3 ) from entry-point \"a b\" then end",
        "rule \"r\" when E ( ) over window : length ( 3 ) from entry - point \"a b\" then end\n",
    ),
    (
        "rule r when $n : Number( longValue > 3, intValue < $m ) from accumulate( E( $x : x ), sum( $x ) ) then end",
        "rule \"r\" when $n : Number ( longValue > 3 , longValue < $m ) from accumulate ( E ( $x : x ) , sum ( $x ) ) then end\n",
    ),
    (
        "rule r when accumulate( E( ) from entry-point X; $n : count( $x ); $n >= 1, $n != $m ) then end",
        "rule \"r\" when $n : Number ( longValue >= 1 , longValue != $m ) from accumulate ( E ( ) from entry - point \"X\" , count ( $x ) ) then end\n",
    ),
    (
        "rule r when A( s == 'a\"b\\n\\\\' ) then retract ( $a ); insert(new A(1, $b)) insert(new B()); end",
        "rule \"r\" when A ( s == \"a\\\"b\\n\\\\\" ) then retract ( $a ) insert ( new A ( 1 , $b ) ) insert ( new B ( ) ) end\n",
    ),
    (
        "rule r when A() then modify($a) { x = 1 - 2 - 3, setY(2 * (3 + $a.b)), setyY(-(1)) } end",
        "rule \"r\" when A ( ) then modify ( $a ) { x = ( 1 - 2 ) - 3 , y = 2 * ( 3 + $a . b ) , yY = - 1 } end\n",
    ),
    (
        "rule r when A(x > 1, t) then end",
        "item 1 on line 1 is outside the grammar",
    ),
    (
        "package a\nimport b\n\nimport 1\nimport 2",
        "item 3 on line 4 is outside the grammar",
    ),
    ("package 1\n\n\"a", "OpenText on line 3"),
];

/// What is shown of a rule file, or why it is refused.
fn shown(alloc: Global, source: &[u8]) -> Result<Vec<u8>, NoMemory> {
    match parse(alloc, source) {
        Ok(file) => show(alloc, &file),
        Err(fault) => Ok(refusal(alloc, fault)?.into_bytes()),
    }
}

fn refusal(alloc: Global, fault: ParseFault) -> Result<String, AllocError> {
    format!(in alloc; "{fault}")
}

#[test]
fn files_are_shown_or_refused(rt: HostRuntime) -> Result<(), Fail> {
    for row in SHOWN {
        assert_eq!(rt;
            shown(rt.alloc(), row.0.as_bytes())?.as_slice(),
            row.1.as_bytes()
        );
    }
    Ok(())
}

/// Whether what is shown of a rule file is shown of that again.
fn is_shown_again(alloc: Global, source: &[u8]) -> Result<bool, NoMemory> {
    match parse(alloc, source) {
        Ok(file) => {
            let text = show(alloc, &file)?;
            Ok(shown(alloc, &text)? == text)
        }
        Err(_) => Ok(true),
    }
}

#[test]
fn files_are_shown_and_read_again(rt: HostRuntime) -> Result<(), Fail> {
    for row in SHOWN {
        assert!(rt; is_shown_again(rt.alloc(), row.0.as_bytes())?, "{}", row.0);
    }
    Ok(())
}
