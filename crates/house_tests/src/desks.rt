use crate::agreeing::Cell::{Bool, Int, Text};
use crate::agreeing::Step::{At, Change, Come, ComeBy, Go};
use crate::agreeing::{Step, agree};
use std::test::Fail;

/// A bank's desk.
const FRAUD: &str = "\
    package bank.desk;\n\
    import bank.events.Withdrawal;\n\
    import bank.books.*;\n\
    dialect 'mvel';\n\
    /* The bank's books are plain facts. What happens comes in as events, and a case is what the desk works on. */\n\
    declare Account\n\
      number : long\n\
      owner : String\n\
    end\n\
    declare Withdrawal\n\
      @role( event )\n\
      @timestamp( at )\n\
      at : long\n\
      account : long\n\
      cents : long\n\
      place : String\n\
    end\n\
    declare Call\n\
      @role( event )\n\
      @timestamp( at )\n\
      at : long\n\
      account : long\n\
      about : String\n\
    end\n\
    declare Case\n\
      account : long\n\
      about : String\n\
      since : long\n\
      open : boolean\n\
    end\n\
    # Cash machines report up to two seconds late; calls come in at once.\n\
    declare entry-point 'ATM' @lateness( 2s ) end\n\
    // Two machines within half a minute: one card may be a copy. A later call of the owner clears it.\n\
    rule 'two places'\n\
      salience 20\n\
    when\n\
      $w : Withdrawal( $n : account, $place : place ) from entry-point 'ATM'\n\
      $v : Withdrawal( account == $n, place != $place, this after[0s,30s] $w ) from entry-point 'ATM'\n\
      not( Case( account == $n, about == 'two places', open == true ) )\n\
      not( Call( account == $n, about == 'it was me', this after[0s] $v ) )\n\
    then\n\
      insert( new Case( $n, 'two places', $v.at, true ) );\n\
    end\n\
    // The owner calls behind what the case is about: the case is closed.\n\
    rule 'it was the owner'\n\
      salience 20, dialect 'mvel'\n\
    when\n\
      $c : Case( $n : account, open == true )\n\
      Call( account == $n, about == 'it was me', at >= $c.since )\n\
    then\n\
      modify( $c ) { setOpen( false ) }\n\
    end\n\
    // Four or more within a minute; each further one is a case of its own.\n\
    rule 'burst'\n\
      salience 10\n\
    when\n\
      Account( $n : number )\n\
      Number( longValue >= 4 ) from accumulate(\n\
        Withdrawal( account == $n, $x : cents ) over window:time( 1m ) from entry-point 'ATM',\n\
        count( $x ) )\n\
      accumulate( Withdrawal( account == $n, $t : at ) over window:time( 1m ) from entry-point 'ATM'; $last : max( $t ) )\n\
    then\n\
      insert( new Case( $n, 'burst', $last, true ) );\n\
    end\n\
    // More than 2,000 within an hour, and again with each further sum.\n\
    rule 'emptied'\n\
      salience 10\n\
    when\n\
      Account( $n : number )\n\
      accumulate(\n\
        Withdrawal( account == $n, $x : cents ) over window:time( 1h ) from entry-point 'ATM';\n\
        $sum : sum( $x );\n\
        $sum > 200000 )\n\
    then\n\
    end\n\
    // A large sum, then neither the card nor its owner is heard of.\n\
    rule 'silent'\n\
    when\n\
      $w : Withdrawal( $n : account, cents >= 100000 ) from entry-point 'ATM'\n\
      not( Withdrawal( account == $n, this after[1ms,1m] $w ) from entry-point 'ATM' )\n\
      not( Call( account == $n, this after[0s,90s] $w ) )\n\
    then\n\
    end\n\
    // Abroad, but the owner had said so within 30 days before.\n\
    rule 'as announced'\n\
      salience -5\n\
    when\n\
      $w : Withdrawal( $n : account, place in ( 'Rome', 'Oslo' ) ) from entry-point 'ATM'\n\
      exists( Call( account == $n, about == 'travel' || about == 'moved', this before[0s,30d] $w ) )\n\
    then\n\
    end\n\
    // The latest three at the machine by the harbour, whoever they were, were all large.\n\
    rule 'harbour'\n\
    when\n\
      Number( longValue == 3 ) from accumulate(\n\
        Withdrawal( place == 'harbour', $t : at ) over window:length( 3 ) from entry-point 'ATM',\n\
        count( $t ) )\n\
      accumulate(\n\
        Withdrawal( place == 'harbour', $x : cents ) over window:length( 3 ) from entry-point 'ATM';\n\
        $least : min( $x );\n\
        $least >= 30000 )\n\
    then\n\
    end\n\
    rule 'filed' salience -10 when $c : Case( open == false ) then retract( $c ); end\n\
    ";

const FRAUD_STEPS: &[Step] = &[
    Come("Account", &[Int(7), Text("Ann")]),
    Come("Account", &[Int(8), Text("Ben")]),
    At(60_000),
    Come("Call", &[Int(60_000), Int(8), Text("travel")]),
    At(100_000),
    ComeBy(
        "ATM",
        "Withdrawal",
        &[Int(99_000), Int(8), Int(5_000), Text("Rome")],
    ),
    ComeBy(
        "ATM",
        "Withdrawal",
        &[Int(99_500), Int(7), Int(10_000), Text("harbour")],
    ),
    ComeBy(
        "ATM",
        "Withdrawal",
        &[Int(100_000), Int(7), Int(20_000), Text("station")],
    ),
    Come(
        "Case",
        &[Int(7), Text("two places"), Int(100_000), Bool(true)],
    ),
    Come("Call", &[Int(100_000), Int(7), Text("it was me")]),
    Change(7, 3, Bool(false)),
    Go(7),
    ComeBy(
        "ATM",
        "Withdrawal",
        &[Int(100_000), Int(8), Int(40_000), Text("harbour")],
    ),
    ComeBy(
        "ATM",
        "Withdrawal",
        &[Int(100_000), Int(8), Int(40_000), Text("harbour")],
    ),
    At(112_000),
    ComeBy(
        "ATM",
        "Withdrawal",
        &[Int(112_000), Int(8), Int(30_000), Text("harbour")],
    ),
    ComeBy(
        "ATM",
        "Withdrawal",
        &[Int(112_000), Int(8), Int(120_000), Text("harbour")],
    ),
    ComeBy(
        "ATM",
        "Withdrawal",
        &[Int(112_000), Int(7), Int(150_000), Text("market")],
    ),
    Come("Case", &[Int(8), Text("burst"), Int(112_000), Bool(true)]),
    Come("Call", &[Int(112_000), Int(8), Text("it was me")]),
    At(130_000),
    ComeBy(
        "ATM",
        "Withdrawal",
        &[Int(128_000), Int(8), Int(100), Text("harbour")],
    ),
    At(159_000),
    At(159_999),
    At(160_000),
    At(160_001),
    At(172_000),
    At(172_001),
    At(172_500),
    At(172_501),
    ComeBy(
        "ATM",
        "Withdrawal",
        &[Int(170_501), Int(9), Int(100_000), Text("market")],
    ),
    ComeBy(
        "ATM",
        "Withdrawal",
        &[Int(172_501), Int(9), Int(60_000), Text("Oslo")],
    ),
    At(190_000),
    ComeBy(
        "ATM",
        "Withdrawal",
        &[Int(188_500), Int(7), Int(110_000), Text("market")],
    ),
    At(200_500),
    At(200_501),
    At(232_501),
    At(250_501),
    At(280_000),
    Go(13),
    Go(14),
    Go(19),
    Go(3),
    Come("Case", &[Int(7), Text("mine"), Int(100_000), Bool(true)]),
    At(3_699_000),
    At(3_700_000),
    At(3_712_000),
    At(3_790_000),
];

#[test]
fn the_network_agrees_on_the_fraud_desk(rt: HostRuntime) -> Result<(), Fail> {
    assert!(rt; agree(rt.alloc(), FRAUD, FRAUD_STEPS, false)?);
    assert!(rt;
        agree(rt.alloc(), FRAUD, FRAUD_STEPS, true)?,
        "where quiet moves are skipped"
    );
    Ok(())
}

/// An alarm centre.
const ALARM: &str = "\
    // An alarm centre: smoke and sprinklers, doors, sensors that send a beat every few seconds, and officers who look.\n\
    declare Officer name : String on : boolean end\n\
    declare Sensor number : long room : String end\n\
    declare Alarm room : String kind : String calls : long end\n\
    declare Dispatch room : String by : String end\n\
    declare Smoke @role( event ) room : String end\n\
    declare Confirm @role( event ) room : String by : String end\n\
    // A beat counts for half a minute.\n\
    declare Beat @role( event ) @expires( 30s ) sensor : long end\n\
    declare Sprinkler\n\
      @role( event )\n\
      @timestamp( at )\n\
      at : long\n\
      room : String\n\
    end\n\
    // A door is reported when it closes, with the moment at which it was opened and how long it stood open.\n\
    declare Door\n\
      @role( event )\n\
      @timestamp( opened )\n\
      @duration( open )\n\
      opened : long\n\
      open : long\n\
      room : String\n\
      key : String\n\
    end\n\
    declare entry-point 'radio' @lateness( 3s ) end\n\
    declare entry-point 'doors' @lateness( 10m ) end\n\
    rule 'no water'\n\
      salience 100\n\
    when\n\
      $s : Smoke( $r : room )\n\
      not( Sprinkler( room == $r, this after[0s,10s] $s ) from entry-point 'radio' )\n\
    then\n\
      insert( new Alarm( $r, 'fire', 0 ) );\n\
    end\n\
    rule 'water'\n\
    when\n\
      $s : Smoke( $r : room )\n\
      exists( Sprinkler( room == $r, this after[0s,10s] $s ) from entry-point 'radio' )\n\
    then\n\
    end\n\
    rule 'confirmed'\n\
      salience 50\n\
    when\n\
      $a : Alarm( $r : room, kind == 'fire' )\n\
      $s : Smoke( room == $r )\n\
      Confirm( room == $r, $who : by, this after[0s,2m] $s )\n\
    then\n\
      retract( $a );\n\
      insert( new Dispatch( $r, $who ) );\n\
    end\n\
    rule 'nobody looks'\n\
      salience 40\n\
    when\n\
      $a : Alarm( $r : room, kind == 'fire' )\n\
      $s : Smoke( room == $r )\n\
      not( Confirm( room == $r, this after[0s,2m] $s ) )\n\
    then\n\
      modify( $a ) { kind = 'unanswered', calls = $a.calls + 1 }\n\
    end\n\
    rule 'silent sensor'\n\
    when\n\
      Sensor( $k : number )\n\
      not Beat( sensor == $k )\n\
    then\n\
    end\n\
    rule 'nobody on duty'\n\
    when\n\
      not( Officer( on == true ) )\n\
    then\n\
    end\n\
    // The lock has two doors. One passes in where the inner door opens about when the outer one closes, and out the other way round.\n\
    rule 'came in'\n\
    when\n\
      $i : Door( $r : room, key == 'inner' ) from entry-point 'doors'\n\
      Door( room == $r, key == 'outer', this meets[2s] $i ) from entry-point 'doors'\n\
    then\n\
    end\n\
    rule 'went out'\n\
    when\n\
      $i : Door( $r : room, key == 'inner' ) from entry-point 'doors'\n\
      Door( room == $r, key == 'outer', this metby[2s] $i ) from entry-point 'doors'\n\
    then\n\
    end\n\
    rule 'lock open'\n\
    when\n\
      $i : Door( $r : room, key == 'inner' ) from entry-point 'doors'\n\
      Door( room == $r, key == 'outer', this includes $i ) from entry-point 'doors'\n\
    then\n\
    end\n\
    rule 'left open'\n\
    when\n\
      Door( open > 600000 || key == 'outer' && open > 120000 ) from entry-point 'doors'\n\
    then\n\
    end\n\
    rule 'smoke at an open door'\n\
    when\n\
      $d : Door( $r : room ) from entry-point 'doors'\n\
      Smoke( room == $r, this during $d )\n\
    then\n\
    end\n\
    ";

const ALARM_STEPS: &[Step] = &[
    Come("Officer", &[Text("Eva"), Bool(true)]),
    Come("Sensor", &[Int(1), Text("hall")]),
    Come("Sensor", &[Int(2), Text("store")]),
    Come("Beat", &[Int(1)]),
    At(20_000),
    Come("Beat", &[Int(2)]),
    Come("Beat", &[Int(1)]),
    At(49_999),
    Come("Beat", &[Int(1)]),
    At(50_000),
    Come("Smoke", &[Text("hall")]),
    Come("Smoke", &[Text("store")]),
    At(61_000),
    ComeBy("radio", "Sprinkler", &[Int(59_000), Text("hall")]),
    At(63_000),
    At(63_001),
    Come("Alarm", &[Text("store"), Text("fire"), Int(0)]),
    At(79_999),
    At(90_000),
    Come("Confirm", &[Text("store"), Text("Eva")]),
    Go(11),
    Come("Smoke", &[Text("hall")]),
    Come("Alarm", &[Text("hall"), Text("fire"), Int(0)]),
    Change(1, 1, Bool(false)),
    At(99_000),
    ComeBy(
        "doors",
        "Door",
        &[Int(95_000), Int(4_000), Text("lock"), Text("outer")],
    ),
    At(100_500),
    ComeBy(
        "doors",
        "Door",
        &[Int(99_500), Int(1_000), Text("lock"), Text("inner")],
    ),
    At(103_000),
    At(103_001),
    Change(1, 1, Bool(true)),
    At(170_000),
    At(170_001),
    Come("Beat", &[Int(1)]),
    Change(14, 1, Text("unanswered")),
    At(172_000),
    ComeBy(
        "doors",
        "Door",
        &[Int(160_000), Int(8_000), Text("lock"), Text("outer")],
    ),
    ComeBy(
        "doors",
        "Door",
        &[Int(162_000), Int(3_000), Text("lock"), Text("inner")],
    ),
    ComeBy(
        "doors",
        "Door",
        &[Int(167_000), Int(1_000), Text("lock"), Text("inner")],
    ),
    Come("Smoke", &[Text("lock")]),
    At(380_000),
    ComeBy(
        "doors",
        "Door",
        &[Int(169_000), Int(200_000), Text("lock"), Text("outer")],
    ),
    At(800_000),
    ComeBy(
        "doors",
        "Door",
        &[Int(201_000), Int(599_000), Text("store"), Text("outer")],
    ),
    ComeBy(
        "doors",
        "Door",
        &[Int(201_000), Int(700_000), Text("hall"), Text("inner")],
    ),
    Go(9),
    Go(8),
    Go(20),
    Go(15),
    Go(23),
    Go(24),
    Go(22),
    Go(19),
    Go(13),
    Go(21),
    At(900_000),
];

#[test]
fn the_network_agrees_on_the_alarm_desk(rt: HostRuntime) -> Result<(), Fail> {
    assert!(rt; agree(rt.alloc(), ALARM, ALARM_STEPS, false)?);
    assert!(rt;
        agree(rt.alloc(), ALARM, ALARM_STEPS, true)?,
        "where quiet moves are skipped"
    );
    Ok(())
}

/// A plant monitor.
const PLANT: &str = "\
    # A plant: machines with a limit of degrees, readings by a gateway, the states of oven and press, stops and starts.\n\
    declare Machine name : String limit : long end\n\
    declare Task machine : String what : String degrees : long merged : long end\n\
    # Readings come through a gateway that is up to five seconds late, and are of no use behind ten minutes.\n\
    declare Reading\n\
      @role( event )\n\
      @timestamp( at )\n\
      @expires( 10m )\n\
      at : long\n\
      machine : String\n\
      degrees : long\n\
    end\n\
    declare entry-point 'gateway' @lateness( 5s ) end\n\
    # A state is known when it is over. Oven and press have an entry point each, since their states overlap.\n\
    declare State\n\
      @role( event )\n\
      @timestamp( since )\n\
      @duration( lasted )\n\
      since : long\n\
      lasted : long\n\
      word : String\n\
    end\n\
    declare entry-point 'oven' @lateness( 1h ) end\n\
    declare entry-point 'press' @lateness( 1h ) end\n\
    declare Stop @role( event ) machine : String end\n\
    declare Start @role( event ) machine : String end\n\
    rule 'hot'\n\
      salience 10\n\
    when\n\
      Machine( $n : name, $top : limit )\n\
      accumulate(\n\
        Reading( machine == $n, $d : degrees ) over window:time( 1m ) from entry-point 'gateway';\n\
        $mean : average( $d );\n\
        $mean > $top )\n\
    then\n\
      insert( new Task( $n, 'cool', $mean, 0 ) );\n\
    end\n\
    // Of two tasks to cool one machine the one of more degrees stays.\n\
    rule 'merge'\n\
      salience -1\n\
    when\n\
      $a : Task( $n : machine, what == 'cool', $most : degrees )\n\
      $b : Task( machine == $n, what == 'cool', degrees < $most )\n\
    then\n\
      modify( $a ) { merged = $a.merged + $b.merged + 1 }\n\
      retract( $b );\n\
    end\n\
    // The greatest reading of the last minute, and which it was.\n\
    rule 'peak'\n\
    when\n\
      Machine( $n : name )\n\
      $peak : Number( longValue > 210 ) from accumulate(\n\
        Reading( machine == $n, $d : degrees ) over window:time( 1m ) from entry-point 'gateway',\n\
        max( $d ) )\n\
      Reading( machine == $n, degrees == $peak ) over window:time( 1m ) from entry-point 'gateway'\n\
    then\n\
    end\n\
    // Only the latest reading of the oven counts.\n\
    rule 'over the limit'\n\
    when\n\
      $r : Reading( machine == 'oven' ) over window:length( 1 ) from entry-point 'gateway'\n\
      Machine( name == 'oven', limit < $r.degrees )\n\
    then\n\
    end\n\
    // The mean of the latest two of the press, whenever they were.\n\
    rule 'frost'\n\
    when\n\
      Number( longValue < 0 ) from accumulate(\n\
        Reading( machine == 'press', $d : degrees ) over window:length( 2 ) from entry-point 'gateway',\n\
        average( $d ) )\n\
    then\n\
    end\n\
    rule 'stands too long'\n\
    when\n\
      $s : Stop( $n : machine )\n\
      not( Start( machine == $n, this after[0s,5m] $s ) )\n\
    then\n\
      insert( new Task( $n, 'restart', 0, 0 ) );\n\
    end\n\
    // How a run of the press lies to a heating of the oven.\n\
    rule 'oven late' when $o : State() from entry-point 'oven' State( this overlaps $o ) from entry-point 'press' then end\n\
    rule 'press early' when $o : State() from entry-point 'oven' State( this overlappedby $o ) from entry-point 'press' then end\n\
    rule 'short run' when $o : State() from entry-point 'oven' State( this starts $o ) from entry-point 'press' then end\n\
    rule 'long run' when $o : State() from entry-point 'oven' State( this startedby $o ) from entry-point 'press' then end\n\
    rule 'late start' when $o : State() from entry-point 'oven' State( this finishes $o ) from entry-point 'press' then end\n\
    rule 'early start' when $o : State() from entry-point 'oven' State( this finishedby $o ) from entry-point 'press' then end\n\
    rule 'as planned' when $o : State() from entry-point 'oven' State( this coincides[1s] $o ) from entry-point 'press' then end\n\
    ";

const PLANT_STEPS: &[Step] = &[
    Come("Machine", &[Text("oven"), Int(200)]),
    Come("Machine", &[Text("press"), Int(60)]),
    At(60_000),
    ComeBy("gateway", "Reading", &[Int(58_000), Text("oven"), Int(190)]),
    ComeBy("gateway", "Reading", &[Int(60_000), Text("oven"), Int(215)]),
    Come("Task", &[Text("oven"), Text("cool"), Int(202), Int(0)]),
    Come("Task", &[Text("oven"), Text("cool"), Int(206), Int(0)]),
    Change(6, 3, Int(1)),
    Go(5),
    At(61_000),
    ComeBy("gateway", "Reading", &[Int(60_500), Text("oven"), Int(196)]),
    At(62_000),
    ComeBy("gateway", "Reading", &[Int(61_000), Text("oven"), Int(209)]),
    ComeBy("gateway", "Reading", &[Int(62_000), Text("oven"), Int(190)]),
    At(118_000),
    At(120_000),
    At(125_000),
    Come("Stop", &[Text("press")]),
    Come("Stop", &[Text("oven")]),
    ComeBy(
        "gateway",
        "Reading",
        &[Int(124_000), Text("press"), Int(-4)],
    ),
    ComeBy(
        "gateway",
        "Reading",
        &[Int(124_000), Text("press"), Int(-3)],
    ),
    ComeBy(
        "gateway",
        "Reading",
        &[Int(125_000), Text("press"), Int(12)],
    ),
    Change(1, 1, Int(180)),
    At(425_000),
    Come("Start", &[Text("oven")]),
    At(425_001),
    Come("Start", &[Text("press")]),
    Go(11),
    Go(10),
    At(657_999),
    At(660_000),
    At(662_000),
    At(724_000),
    ComeBy(
        "gateway",
        "Reading",
        &[Int(720_000), Text("press"), Int(-9)],
    ),
    ComeBy(
        "gateway",
        "Reading",
        &[Int(724_000), Text("press"), Int(-2)],
    ),
    At(1_324_000),
    At(5_000_000),
    ComeBy(
        "oven",
        "State",
        &[Int(2_001_000), Int(1_000), Text("heats")],
    ),
    ComeBy(
        "press",
        "State",
        &[Int(2_000_500), Int(1_000), Text("runs")],
    ),
    ComeBy(
        "oven",
        "State",
        &[Int(2_011_000), Int(1_000), Text("heats")],
    ),
    ComeBy(
        "press",
        "State",
        &[Int(2_011_500), Int(1_000), Text("runs")],
    ),
    ComeBy(
        "oven",
        "State",
        &[Int(2_021_000), Int(1_000), Text("heats")],
    ),
    ComeBy("press", "State", &[Int(2_021_000), Int(500), Text("runs")]),
    ComeBy(
        "oven",
        "State",
        &[Int(2_031_000), Int(1_000), Text("heats")],
    ),
    ComeBy(
        "press",
        "State",
        &[Int(2_031_000), Int(1_500), Text("runs")],
    ),
    ComeBy(
        "oven",
        "State",
        &[Int(2_041_000), Int(1_000), Text("heats")],
    ),
    ComeBy("press", "State", &[Int(2_041_500), Int(500), Text("runs")]),
    ComeBy(
        "oven",
        "State",
        &[Int(2_051_000), Int(1_000), Text("heats")],
    ),
    ComeBy(
        "press",
        "State",
        &[Int(2_050_500), Int(1_500), Text("runs")],
    ),
    ComeBy(
        "oven",
        "State",
        &[Int(2_061_000), Int(1_000), Text("heats")],
    ),
    ComeBy("press", "State", &[Int(2_061_400), Int(500), Text("runs")]),
    Go(19),
    Go(22),
    Go(23),
    Go(26),
    Go(27),
    Go(30),
    Go(31),
];

#[test]
fn the_network_agrees_on_the_plant_desk(rt: HostRuntime) -> Result<(), Fail> {
    assert!(rt; agree(rt.alloc(), PLANT, PLANT_STEPS, false)?);
    assert!(rt;
        agree(rt.alloc(), PLANT, PLANT_STEPS, true)?,
        "where quiet moves are skipped"
    );
    Ok(())
}
