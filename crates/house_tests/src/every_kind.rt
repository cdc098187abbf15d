use crate::agreeing::Cell::{Bool, Int, Text};
use crate::agreeing::Step::{At, Change, Come, ComeBy, Go};
use crate::agreeing::{Step, agree};
use std::test::Fail;

/// Each kind of condition, and each way in which one joins what stands before it.
const RULES: &str = "\
    declare Item key : long amount : long open : boolean name : String end\n\
    declare Limit key : long most : long end\n\
    declare Ping @role( event ) key : long size : long end\n\
    declare Alert @role( event ) key : long end\n\
    declare Beat @role( event ) @expires( 10s ) key : long size : long end\n\
    declare Report @role( event ) @timestamp( at ) at : long key : long end\n\
    declare Echo @role( event ) @timestamp( at ) @expires( 2s ) at : long end\n\
    declare Span @role( event ) @timestamp( since ) @duration( lasted ) since : long lasted : long end\n\
    declare entry-point radio @lateness( 3s ) end\n\
    declare entry-point oven @lateness( 1h ) end\n\
    declare entry-point press @lateness( 1h ) end\n\
    rule 'constants' when Item( open == true && name in ( 'a', 'b' ) || amount < 0 ) then end\n\
    rule 'fields of one fact' when Item( amount == key ) then end\n\
    rule 'join by value' when Limit( $k : key, $m : most ) Item( key == $k, amount > $m ) then end\n\
    rule 'join by order' when $i : Item( $n : amount ) Item( amount > $n, key != $i.key ) then end\n\
    rule 'join by text' when $i : Item( $n : name ) Item( name == $n, key > $i.key ) then end\n\
    rule 'three of a kind' when $a : Item( $k : key ) $b : Item( key == $k, amount > $a.amount ) Item( key == $k, amount > $b.amount ) then end\n\
    rule after when $s : Span() from entry-point oven Span( this after[0s,1s] $s ) from entry-point press then end\n\
    rule before when $s : Span() from entry-point oven Span( this before[0s,1s] $s ) from entry-point press then end\n\
    rule coincides when $s : Span() from entry-point oven Span( this coincides $s ) from entry-point press then end\n\
    rule during when $s : Span() from entry-point oven Span( this during $s ) from entry-point press then end\n\
    rule includes when $s : Span() from entry-point oven Span( this includes $s ) from entry-point press then end\n\
    rule meets when $s : Span() from entry-point oven Span( this meets $s ) from entry-point press then end\n\
    rule metby when $s : Span() from entry-point oven Span( this metby $s ) from entry-point press then end\n\
    rule overlaps when $s : Span() from entry-point oven Span( this overlaps $s ) from entry-point press then end\n\
    rule overlappedby when $s : Span() from entry-point oven Span( this overlappedby $s ) from entry-point press then end\n\
    rule starts when $s : Span() from entry-point oven Span( this starts $s ) from entry-point press then end\n\
    rule startedby when $s : Span() from entry-point oven Span( this startedby $s ) from entry-point press then end\n\
    rule finishes when $s : Span() from entry-point oven Span( this finishes $s ) from entry-point press then end\n\
    rule finishedby when $s : Span() from entry-point oven Span( this finishedby $s ) from entry-point press then end\n\
    rule 'no limit' when Item( $k : key ) not Limit( key == $k ) then end\n\
    rule 'no low limit' when not( Limit( most < 0 ) ) then end\n\
    rule 'no alert behind' when $b : Beat( $k : key ) not Alert( key == $k, this after[0s] $b ) then end\n\
    rule 'no alert for a while' when $b : Beat( $k : key ) not( Alert( key == $k, this after[0s,2s] $b ) over window:time( 4s ) ) then end\n\
    rule 'no report' when $a : Alert( $k : key ) not( Report( key == $k, this after[0s,5s] $a ) from entry-point radio ) Limit( key == $k ) then end\n\
    rule 'silent' when $b : Beat( $k : key ) not( Beat( key == $k, this after[1ms,5s] $b ) ) then end\n\
    rule 'no beat now' when Limit( $k : key ) not Beat( key == $k ) then end\n\
    rule 'no large ping lately' when Limit( $k : key ) not( Ping( key == $k, size > 5 ) over window:time( 5s ) ) then end\n\
    rule 'neither of the last' when Limit( $k : key ) not( Ping( key == $k ) over window:length( 2 ) ) then end\n\
    rule 'some item' when Limit( $k : key ) exists Item( key == $k ) then end\n\
    rule 'some ping lately' when Limit( $k : key ) exists( Ping( key == $k ) over window:time( 5s ) ) then end\n\
    rule 'some of the last' when Limit( $k : key ) exists( Ping( key == $k ) over window:length( 2 ) ) then end\n\
    rule 'reported before' when $b : Beat( $k : key ) exists( Report( key == $k, this before[0s,5s] $b ) from entry-point radio ) then end\n\
    rule 'some beat at all' when exists Beat() then end\n\
    rule 'how many' when Limit( $k : key ) accumulate( Ping( key == $k, $x : size ) over window:time( 5s ); $n : count( $x ); $n > 0 ) then end\n\
    rule 'sum of pings' when Limit( $k : key, $m : most ) accumulate( Ping( key == $k, $x : size ) over window:time( 5s ); $n : sum( $x ); $n > $m ) then end\n\
    rule 'mean of pings' when Limit( $k : key ) accumulate( Ping( key == $k, $x : size ) over window:time( 5s ); $n : average( $x ) ) then end\n\
    rule 'least beat' when Limit( $k : key ) accumulate( Beat( key == $k, $x : size ); $n : min( $x ) ) then end\n\
    rule 'greatest beat' when Limit( $k : key ) $n : Number( longValue >= 3 ) from accumulate( Beat( key == $k, $x : size ), max( $x ) ) Beat( key == $k, size == $n ) then end\n\
    rule 'sum of items' when accumulate( Item( $x : amount ); $n : sum( $x ); $n != 0 ) then end\n\
    rule 'mean of the last' when accumulate( Ping( size > 0, $x : size ) over window:length( 3 ); $n : average( $x ); $n > 4 ) then end\n\
    rule 'more than before' when accumulate( Item( $x : amount ); $n : max( $x ) ) accumulate( Ping( $y : size ) over window:time( 5s ); $m : max( $y ); $m > $n ) then end\n\
    rule 'large lately' when Ping( size > 5 ) over window:time( 5s ) then end\n\
    rule 'latest two' when Ping( size > 0 ) over window:length( 2 ) then end\n\
    rule 'pair in windows' when $p : Ping( $k : key ) over window:time( 5s ) Ping( key == $k, size > $p.size ) over window:length( 2 ) then end\n\
    rule 'by radio' when Report( $k : key ) from entry-point radio Limit( key == $k ) then end\n\
    rule 'beat by beat' when $b : Beat( $k : key ) Beat( key == $k, this after[1ms,8s] $b ) then end\n\
    rule 'long chain' when Limit( $k : key, $m : most ) exists Item( key == $k ) not( Alert( key == $k ) over window:time( 5s ) ) accumulate( Ping( key == $k, $x : size ) over window:time( 5s ); $n : sum( $x ); $n > $m ) Beat( key == $k, size < $n ) then end\n\
    rule echo when Echo() from entry-point radio then end\n\
    ";

const STEPS: &[Step] = &[
    // Plain facts: joins, constants, `not` and `exists` without times.
    Come("Item", &[Int(1), Int(20), Bool(false), Text("a")]),
    Come("Item", &[Int(2), Int(5), Bool(true), Text("b")]),
    Come("Limit", &[Int(1), Int(10)]),
    Come("Limit", &[Int(2), Int(-1)]),
    Come("Item", &[Int(1), Int(30), Bool(true), Text("c")]),
    Come("Item", &[Int(1), Int(40), Bool(true), Text("a")]),
    Come("Item", &[Int(7), Int(7), Bool(false), Text("c")]),
    Change(2, 1, Int(-5)),
    Change(4, 1, Int(4)),
    Change(7, 1, Int(8)),
    Go(5),
    Change(1, 0, Int(3)),
    Go(6),
    Change(1, 0, Int(1)),
    Go(3),
    Come("Limit", &[Int(1), Int(10)]),
    Change(2, 0, Int(3)),
    Change(1, 3, Text("b")),
    Change(1, 3, Text("a")),
    Change(2, 0, Int(2)),
    // Windows of time and of length, and results.
    At(1_000),
    Come("Ping", &[Int(1), Int(4)]),
    Come("Ping", &[Int(1), Int(8)]),
    Come("Ping", &[Int(2), Int(0)]),
    At(2_000),
    Come("Ping", &[Int(1), Int(-8)]),
    Come("Ping", &[Int(1), Int(30)]),
    At(5_999),
    At(6_000),
    Come("Ping", &[Int(1), Int(6)]),
    Come("Ping", &[Int(1), Int(-6)]),
    Come("Ping", &[Int(1), Int(6)]),
    At(7_000),
    Come("Ping", &[Int(3), Int(1)]),
    Come("Ping", &[Int(3), Int(2)]),
    Come("Ping", &[Int(2), Int(9)]),
    At(11_000),
    At(12_000),
    // More that leave by and by, and then all the rest at once.
    Come("Ping", &[Int(1), Int(12)]),
    At(12_001),
    Come("Ping", &[Int(1), Int(20)]),
    Come("Ping", &[Int(1), Int(5)]),
    Come("Ping", &[Int(1), Int(-5)]),
    At(13_000),
    Come("Ping", &[Int(1), Int(11)]),
    Come("Ping", &[Int(1), Int(13)]),
    At(17_000),
    At(17_001),
    At(18_000),
    // Events that expire, that wait, and what keeps them from it.
    At(20_000),
    Come("Beat", &[Int(1), Int(3)]),
    Come("Beat", &[Int(2), Int(1)]),
    At(21_000),
    Come("Beat", &[Int(1), Int(5)]),
    Come("Beat", &[Int(1), Int(2)]),
    At(22_000),
    At(22_001),
    Come("Alert", &[Int(1)]),
    Come("Alert", &[Int(2)]),
    At(23_000),
    ComeBy("radio", "Report", &[Int(22_500), Int(1)]),
    At(25_001),
    At(26_000),
    At(26_001),
    Come("Beat", &[Int(2), Int(7)]),
    At(29_000),
    ComeBy("radio", "Report", &[Int(27_001), Int(2)]),
    At(29_999),
    At(30_000),
    At(30_001),
    At(30_002),
    At(31_000),
    At(36_000),
    At(36_001),
    ComeBy("radio", "Report", &[Int(35_500), Int(1)]),
    Come("Beat", &[Int(1), Int(4)]),
    Come("Beat", &[Int(2), Int(4)]),
    Go(37),
    At(38_000),
    Come("Alert", &[Int(1)]),
    At(40_000),
    // Much in one move: the waiting is over, what kept a row away expires, and windows are left.
    Come("Beat", &[Int(1), Int(9)]),
    At(50_000),
    Come("Beat", &[Int(1), Int(1)]),
    Come("Ping", &[Int(1), Int(15)]),
    Come("Alert", &[Int(2)]),
    Come("Beat", &[Int(2), Int(1)]),
    At(70_000),
    // A chain of kinds.
    Come("Item", &[Int(2), Int(6), Bool(false), Text("d")]),
    Come("Ping", &[Int(1), Int(12)]),
    Come("Beat", &[Int(1), Int(3)]),
    Come("Ping", &[Int(1), Int(1)]),
    Come("Alert", &[Int(1)]),
    At(74_999),
    At(75_000),
    Come("Ping", &[Int(1), Int(14)]),
    Come("Beat", &[Int(1), Int(13)]),
    Change(8, 1, Int(13)),
    Change(8, 1, Int(14)),
    // A mean and a sum that two leave together come back to what they were; an echo that is over when it comes.
    At(80_000),
    Come("Ping", &[Int(1), Int(3)]),
    Come("Ping", &[Int(1), Int(5)]),
    At(81_000),
    Come("Ping", &[Int(1), Int(4)]),
    ComeBy("radio", "Echo", &[Int(78_500)]),
    ComeBy("radio", "Echo", &[Int(79_000)]),
    ComeBy("radio", "Echo", &[Int(80_000)]),
    At(82_000),
    At(85_000),
    At(90_000),
    Come("Ping", &[Int(1), Int(5)]),
    Come("Ping", &[Int(1), Int(-5)]),
    At(91_000),
    Come("Ping", &[Int(1), Int(20)]),
    At(95_000),
    At(100_000),
    Go(8),
    Go(4),
    Go(1),
    Go(2),
    At(200_000),
    ComeBy("oven", "Span", &[Int(190_000), Int(1_000)]),
    ComeBy("press", "Span", &[Int(191_500), Int(500)]),
    Go(61),
    At(220_000),
    ComeBy("oven", "Span", &[Int(213_000), Int(1_000)]),
    ComeBy("press", "Span", &[Int(212_000), Int(500)]),
    Go(62),
    At(240_000),
    ComeBy("oven", "Span", &[Int(235_000), Int(1_000)]),
    ComeBy("press", "Span", &[Int(235_000), Int(1_000)]),
    Go(65),
    At(260_000),
    ComeBy("oven", "Span", &[Int(255_000), Int(1_000)]),
    ComeBy("press", "Span", &[Int(255_200), Int(600)]),
    Go(66),
    At(280_000),
    ComeBy("oven", "Span", &[Int(275_200), Int(600)]),
    ComeBy("press", "Span", &[Int(275_000), Int(1_000)]),
    Go(69),
    At(300_000),
    ComeBy("oven", "Span", &[Int(296_000), Int(1_000)]),
    ComeBy("press", "Span", &[Int(295_000), Int(1_000)]),
    Go(70),
    At(320_000),
    ComeBy("oven", "Span", &[Int(316_000), Int(1_000)]),
    ComeBy("press", "Span", &[Int(317_000), Int(1_000)]),
    Go(73),
    At(340_000),
    ComeBy("oven", "Span", &[Int(336_000), Int(2_000)]),
    ComeBy("press", "Span", &[Int(335_000), Int(2_000)]),
    Go(74),
    At(360_000),
    ComeBy("oven", "Span", &[Int(356_000), Int(2_000)]),
    ComeBy("press", "Span", &[Int(357_000), Int(2_000)]),
    Go(77),
    At(380_000),
    ComeBy("oven", "Span", &[Int(376_000), Int(2_000)]),
    ComeBy("press", "Span", &[Int(376_000), Int(1_000)]),
    Go(78),
    At(400_000),
    ComeBy("oven", "Span", &[Int(396_000), Int(2_000)]),
    ComeBy("press", "Span", &[Int(396_000), Int(3_000)]),
    Go(81),
    At(420_000),
    ComeBy("oven", "Span", &[Int(416_000), Int(2_000)]),
    ComeBy("press", "Span", &[Int(417_000), Int(1_000)]),
    Go(82),
    At(440_000),
    ComeBy("oven", "Span", &[Int(436_000), Int(2_000)]),
    ComeBy("press", "Span", &[Int(435_000), Int(3_000)]),
    Go(85),
];

#[test]
fn the_network_agrees_on_every_kind_of_condition(rt: HostRuntime) -> Result<(), Fail> {
    assert!(rt; agree(rt.alloc(), RULES, STEPS, false)?);
    assert!(rt;
        agree(rt.alloc(), RULES, STEPS, true)?,
        "where quiet moves are skipped"
    );
    Ok(())
}
