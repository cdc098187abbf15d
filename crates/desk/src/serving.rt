ghost use Rattle.std.specs.Prelude.{◌≡◌, ◌⊎◌, ◌<◌, ◌≤◌, ℕ, List, length, Some, None, option_map, IfSome};
ghost use Rattle.fx_io.specs.Outside.{append};
ghost use Rattle.command_words.specs.Desk.{desk_by};
ghost use Rattle.replay.specs.Wanted.{Files};
ghost use Rattle.command_words.specs.declared.desk.DeskAsked.{DeskAsked as AskedData};
ghost use Rattle.command_words.specs.declared.desk.DeskWords.TheVariants.{Run};
ghost use Rattle.desk.specs.Causes.{ReadFails};
ghost use Rattle.desk.specs.Report.{IsPrompt, IsSaid, IsServed, IsStopped, usage};
ghost use Rattle.desk.specs.Starts.{wanted_as};
ghost use Rattle.script_run.specs.Live.{most_firings};
ghost use Rattle.desk.specs.Meanings.{both};
ghost use Rattle.desk.specs.Wanted.{over_old, runs, runs_over, wanted, wanted_by};
ghost use Rattle.replay.specs.declared.refusal.Refusal.{Refusal as RefusalData};
ghost use Rattle.replay.specs.Refusals.{reading, refusal_text};
ghost use Rattle.fx_io.specs.Outside.{Rose};
ghost use Rattle.rule_world.specs.Programs.{IsRunnable};

use crate::reading::{Rules, RulesFault, later_rules, rules_in, rules_of};
use crate::running::{run, run_over};
use crate::start::{Start, find_start};
use crate::wanted::{Begun, Changing, Setting};
use checkpoint::Image;
use command_words::{DeskAsked, DeskWords, desk_asked};
use engine::Inspect;
use fx_base::{Seq, Text};
use fx_io::{Shelf, Source};
use fx_store::FileSink;
use replay::{CheckpointCode, CheckpointFault, refuse, refuse_checkpoint, say};
use rule_model::LifeTable;
use script_run::Form;
use std::alloc::Global;

/// What is written where the words are refused.
const USAGE: &[u8] = b"usage: desk [--limit N] [--image NAME] [--keep RULES2] [--text] RULES\n";

/// What is written where the words ask what they mean.
const HELP: &[u8] = b"Runs rules over the lines of a script from standard input, without an end.
usage: desk [--limit N] [--image NAME] [--keep RULES2] [--text] RULES
  RULES         the rule file
  --limit N     the most firings of one fire line, from 1 to 1000000; 100000 if it is not given
  --image NAME  the file from which the run goes on, if it is there, and to which it is saved
  --keep RULES2 keeps events for as long as these rules need them, which are to come later
  --text        answers in lines of text, and not in JSON
  --help        this text
  --version     the version
";

/// What is written where the words ask for the version.
const VERSION: &[u8] = b"desk 0.1.0\n";

fn lent(name: &Option<Text>) -> Option<&str>
    ensures { option_map (λ it. it.now) result ≡ name.now }
{
    match name {
        Some(name) => Some(name.as_str()),
        None => None,
    }
}

// Runs it with the engine for the form of its answers.
fn run_by_form<E: Inspect, D: Inspect, S: Source<K>, K: FileSink>(
    alloc: Global,
    begun: Begun,
    script: &mut S,
    out: &mut K,
) -> u8
    requires runnable { IsRunnable begun.setting.program }
    requires later { IfSome begun.setting.later IsRunnable }
    requires prompt { (bytes : List ℕ) (now : K)
        → IsPrompt (both E.gives E.fires E.counts D.gives D.fires D.counts) (runs begun) bytes (K.written out.old) (K.written now) (K.files out.old) (K.files now) → S.may_ask script.old bytes now }
    ensures served { IfSome (S.left script.old) (λ bytes. IsServed (both E.gives E.fires E.counts D.gives D.fires D.counts) (runs begun) bytes
        (K.written out.old) (K.written out.new) (K.files out.old) (K.files out.new) result) }
    ensures stopped { result ≡ 5 → IfSome (S.left script.old) (λ bytes. IsStopped (both E.gives E.fires E.counts D.gives D.fires D.counts) (runs begun) bytes
        (S.left script.new) (K.written out.old) (K.written out.new) (K.files out.old) (K.files out.new)) }
    ensures long { result ≡ 8 → IfSome (S.left script.old) (λ bytes. most_firings < length bytes) }
    ensures answers { (result ≤ 1) ⊎ ((5 ≤ result) × (result ≤ 9)) ⊎ (result ≡ 11) }
    ensures read { result ≡ 5 → Rose (S.faults script.old) (S.faults script.new) }
    ensures write { result ≡ 6 → Rose (K.faults out.old) (K.faults out.new) }
{
    match &begun.setting.form {
        Form::Text => run::<E, S, K>(alloc, begun, script, out),
        Form::Objects(_) => run::<D, S, K>(alloc, begun, script, out),
    }
}

// Runs it so behind an image of other rules.
fn run_over_by_form<E: Inspect, D: Inspect, S: Source<K>, K: FileSink>(
    alloc: Global,
    changing: Changing,
    script: &mut S,
    out: &mut K,
) -> u8
    requires runnable { IsRunnable changing.setting.program }
    requires old { IsRunnable changing.old }
    requires later { IfSome changing.setting.later IsRunnable }
    requires prompt { (bytes : List ℕ) (now : K)
        → IsPrompt (both E.gives E.fires E.counts D.gives D.fires D.counts) (runs_over changing) bytes (K.written out.old) (K.written now) (K.files out.old) (K.files now) → S.may_ask script.old bytes now }
    ensures served { IfSome (S.left script.old) (λ bytes. IsServed (both E.gives E.fires E.counts D.gives D.fires D.counts) (runs_over changing) bytes
        (K.written out.old) (K.written out.new) (K.files out.old) (K.files out.new) result) }
    ensures stopped { result ≡ 5 → IfSome (S.left script.old) (λ bytes. IsStopped (both E.gives E.fires E.counts D.gives D.fires D.counts) (runs_over changing) bytes
        (S.left script.new) (K.written out.old) (K.written out.new) (K.files out.old) (K.files out.new)) }
    ensures long { result ≡ 8 → IfSome (S.left script.old) (λ bytes. most_firings < length bytes) }
    ensures answers { (result ≤ 1) ⊎ ((5 ≤ result) × (result ≤ 9)) ⊎ (result ≡ 11) }
    ensures read { result ≡ 5 → Rose (S.faults script.old) (S.faults script.new) }
    ensures write { result ≡ 6 → Rose (K.faults out.old) (K.faults out.new) }
{
    match &changing.setting.form {
        Form::Text => run_over::<E, S, K>(alloc, changing, script, out),
        Form::Objects(_) => run_over::<D, S, K>(alloc, changing, script, out),
    }
}

// Runs a live run behind an image of other rules, where these are accepted.
fn run_changed<E: Inspect, D: Inspect, S: Source<K>, K: FileSink>(
    alloc: Global,
    setting: Setting,
    rules: Seq<u8>,
    lives: Option<LifeTable>,
    image: Image,
    script: &mut S,
    out: &mut K,
) -> u8
    requires runnable { IsRunnable setting.program }
    requires later { IfSome setting.later IsRunnable }
    requires prompt { (bytes : List ℕ) (now : K)
        → IsPrompt (both E.gives E.fires E.counts D.gives D.fires D.counts) (over_old setting rules lives image (reading image.run.rules)) bytes
        (K.written out.old) (K.written now) (K.files out.old) (K.files now) → S.may_ask script.old bytes now }
    ensures served { IfSome (S.left script.old) (λ bytes. IsServed (both E.gives E.fires E.counts D.gives D.fires D.counts)
        (over_old setting rules lives image (reading image.run.rules)) bytes (K.written out.old) (K.written out.new) (K.files out.old) (K.files out.new) result) }
    ensures stopped { result ≡ 5 → IfSome (S.left script.old) (λ bytes. IsStopped (both E.gives E.fires E.counts D.gives D.fires D.counts)
        (over_old setting rules lives image (reading image.run.rules)) bytes (S.left script.new) (K.written out.old) (K.written out.new) (K.files out.old) (K.files out.new)) }
    ensures long { result ≡ 8 → IfSome (S.left script.old) (λ bytes. most_firings < length bytes) }
    ensures answers { (result ≤ 1) ⊎ ((5 ≤ result) × (result ≤ 9)) ⊎ (result ≡ 11) }
    ensures read { result ≡ 5 → Rose (S.faults script.old) (S.faults script.new) }
    ensures write { result ≡ 6 → Rose (K.faults out.old) (K.faults out.new) }
{
    match rules_of(alloc, image.run.rules.as_slice(), false, false) {
        Ok(Rules { program, .. }) => {
            let changing = Changing {
                setting,
                rules,
                old: program,
                lives,
                image,
            };
            run_over_by_form::<E, D, S, K>(alloc, changing, script, out)
        }
        Err(RulesFault::Refused(_)) => refuse_checkpoint(alloc, out, CheckpointCode::Unfit),
        Err(_) => 7,
    }
}

// Runs a live run with what its image is.
fn run_from<E: Inspect, D: Inspect, S: Source<K>, K: FileSink>(
    alloc: Global,
    setting: Setting,
    start: Start,
    script: &mut S,
    out: &mut K,
) -> u8
    requires runnable { IsRunnable setting.program }
    requires later { IfSome setting.later IsRunnable }
    requires prompt { (bytes : List ℕ) (now : K)
        → IsPrompt (both E.gives E.fires E.counts D.gives D.fires D.counts) (wanted_as setting start) bytes (K.written out.old) (K.written now)
        (K.files out.old) (K.files now) → S.may_ask script.old bytes now }
    ensures served { IfSome (S.left script.old) (λ bytes. IsServed (both E.gives E.fires E.counts D.gives D.fires D.counts) (wanted_as setting start) bytes
        (K.written out.old) (K.written out.new) (K.files out.old) (K.files out.new) result) }
    ensures stopped { result ≡ 5 → IfSome (S.left script.old) (λ bytes. IsStopped (both E.gives E.fires E.counts D.gives D.fires D.counts) (wanted_as setting start) bytes
        (S.left script.new) (K.written out.old) (K.written out.new) (K.files out.old) (K.files out.new)) }
    ensures long { result ≡ 8 → IfSome (S.left script.old) (λ bytes. most_firings < length bytes) }
    ensures answers { (result ≤ 1) ⊎ ((5 ≤ result) × (result ≤ 9)) ⊎ (result ≡ 11) }
    ensures read { result ≡ 5 → Rose (S.faults script.old) (S.faults script.new) }
    ensures write { result ≡ 6 → Rose (K.faults out.old) (K.faults out.new) }
{
    match start {
        Start::Begins(beginning, lives) => {
            let begun = Begun {
                setting,
                beginning,
                lives,
            };
            run_by_form::<E, D, S, K>(alloc, begun, script, out)
        }
        Start::Changes(rules, lives, image) => {
            run_changed::<E, D, S, K>(alloc, setting, rules, lives, image, script, out)
        }
    }
}

// Says why there are no rules to run.
fn refuse_rules<K: FileSink>(alloc: Global, fault: RulesFault, out: &mut K) -> u8
    ensures refused { (refusal : RefusalData) → fault ≡ RulesFault.Refused refusal → IsSaid (refusal_text refusal) 3 (K.written out.old) (K.written out.new) (K.files out.old) (K.files out.new) result }
    ensures silent { ((refusal : RefusalData) → fault ≡ RulesFault.Refused refusal → ⊥) → (5 ≤ result) × (result ≤ 7) × (K.written out.new ≡ K.written out.old) × (K.files out.new ≡ K.files out.old) }
    ensures answers { (result ≡ 3) ⊎ ((5 ≤ result) × (result ≤ 7)) }
    ensures read { result ≡ 5 → (fault ≡ RulesFault.ReadFault) × (K.written out.new ≡ K.written out.old) × (K.files out.new ≡ K.files out.old) }
    ensures write { result ≡ 6 → Rose (K.faults out.old) (K.faults out.new) }
{
    match fault {
        RulesFault::Refused(refusal) => refuse(alloc, out, refusal),
        RulesFault::ReadFault => 5,
        RulesFault::NoMemory => 7,
    }
}

// Does what the words ask for.
fn serve<E: Inspect, D: Inspect, F: Shelf, S: Source<K>, K: FileSink>(
    alloc: Global,
    asked: DeskAsked,
    shelf: &mut F,
    script: &mut S,
    out: &mut K,
) -> u8
    requires prompt { (bytes : List ℕ) (now : K)
        → ((files : Files) → F.files shelf.old ≡ Some files → IsPrompt (both E.gives E.fires E.counts D.gives D.fires D.counts) (wanted_by (Some (Run asked)) files) bytes (K.written out.old) (K.written now) (K.files out.old) (K.files now))
        → S.may_ask script.old bytes now }
    ensures served { (files : Files) (bytes : List ℕ) → F.files shelf.old ≡ Some files → S.left script.old ≡ Some bytes
        → IsServed (both E.gives E.fires E.counts D.gives D.fires D.counts) (wanted_by (Some (Run asked)) files) bytes (K.written out.old) (K.written out.new) (K.files out.old) (K.files out.new) result }
    ensures stopped { (files : Files) (bytes : List ℕ) → F.files shelf.old ≡ Some files → S.left script.old ≡ Some bytes → result ≡ 5
        → IsStopped (both E.gives E.fires E.counts D.gives D.fires D.counts) (wanted_by (Some (Run asked)) files) bytes (S.left script.new) (K.written out.old) (K.written out.new) (K.files out.old) (K.files out.new) }
    ensures long { result ≡ 8 → IfSome (S.left script.old) (λ bytes. most_firings < length bytes) }
    ensures answers { (result ≤ 1) ⊎ (result ≡ 3) ⊎ ((5 ≤ result) × (result ≤ 9)) ⊎ (result ≡ 11) }
    ensures read { result ≡ 5 → ReadFails (F.faults shelf.old) (F.faults shelf.new) (S.faults script.old) (S.faults script.new) asked }
    ensures write { result ≡ 6 → Rose (K.faults out.old) (K.faults out.new) }
{
    let rules = match rules_in(alloc, shelf, asked.rules.as_str(), true, !asked.text) {
        Ok(rules) => rules,
        Err(fault) => return refuse_rules(alloc, fault, out),
    };
    let later = match later_rules(alloc, shelf, &asked.keep) {
        Ok(later) => later,
        Err(fault) => return refuse_rules(alloc, fault, out),
    };
    let start = match find_start(alloc, rules.text, lent(&asked.image), shelf) {
        Ok(start) => start,
        Err(CheckpointFault::Refused(code)) => return refuse_checkpoint(alloc, out, code),
        Err(CheckpointFault::ReadFault) => return 5,
        Err(CheckpointFault::NoMemory) => return 7,
    };
    let setting = Setting {
        program: rules.program,
        each: asked.each,
        form: Form::for_answers(asked.text, rules.names),
        image: asked.image,
        later,
    };
    run_from::<E, D, S, K>(alloc, setting, start, script, out)
}

/// Does all that the program `desk` does for the words behind its own name, and answers the status: with an engine of the first type, where its
/// answers are lines of text, and with one of the second, where they are objects.
///
/// It runs a live script over a rule file: from the image of the file that is named, where that is there, to the end of the script, and puts the
/// image of what the run comes to in its place. Where that image is one of other rules, the rules of the file are taken over its worlds, and lines tell
/// what becomes of each rule, or they are refused. Rules that are to come may be named, and events are kept for as long as these need them too. Besides the commands of every script a line may ask to put the image of that moment, for the facts that
/// are kept, and for counts. A fire command makes at most so many firings; where it wants more, and a match is pending still, a line says so, and the
/// run goes on. Each line of the script is closed by a line of its own.
///
/// The status is 0 where the script was read to its end, 1 where a line of it was a fault, 2 where the words are refused, 3 where the rule file
/// is missing or refused, 5 where a read failed, 6 where a write failed, of the output or of an image, 7 where memory was refused, 8 where the script has
/// more than 2^55 bytes, 9 where an image is refused, and 11 where 2^55 firings were made.
pub fn desk<E: Inspect, D: Inspect, F: Shelf, S: Source<K>, K: FileSink>(
    alloc: Global,
    words: &[String],
    shelf: &mut F,
    script: &mut S,
    out: &mut K,
) -> u8
    // It may be run over each source that asks for no more than this: whenever more is asked of it, all that the lines print whose ends were
    // taken is written, and nothing else, and the images are put of those of them that save. This is required of each single call of `read`, so it holds of a run too that never comes to its end.
    requires prompt { (bytes : List ℕ) (now : K)
        → ((files : Files) → F.files shelf.old ≡ Some files → IsPrompt (both E.gives E.fires E.counts D.gives D.fires D.counts) (wanted words.now files) bytes (K.written out.old) (K.written now) (K.files out.old) (K.files now))
        → S.may_ask script.old bytes now }

    // Where the shelf and the script tell their bytes: what is written and put, by the status.
    ensures served { (files : Files) (bytes : List ℕ) → F.files shelf.old ≡ Some files → S.left script.old ≡ Some bytes
        → IsServed (both E.gives E.fires E.counts D.gives D.fires D.counts) (wanted words.now files) bytes (K.written out.old) (K.written out.new) (K.files out.old) (K.files out.new) result }

    // There too, where a read failed: what the lines print that were taken with their ends.
    ensures stopped { (files : Files) (bytes : List ℕ) → F.files shelf.old ≡ Some files → S.left script.old ≡ Some bytes → result ≡ 5
        → IsStopped (both E.gives E.fires E.counts D.gives D.fires D.counts) (wanted words.now files) bytes (S.left script.new) (K.written out.old) (K.written out.new) (K.files out.old) (K.files out.new) }

    // Whatever is told: the usage line.
    ensures usage { result ≡ 2 → K.written out.new ≡ append (K.written out.old) usage }
    ensures words { result ≡ 2 → desk_by words.now ≡ None }
    ensures answers { (result ≤ 3) ⊎ ((5 ≤ result) × (result ≤ 9)) ⊎ (result ≡ 11) }

    // The causes of the answers, of whatever shelf, store, script and sink.
    ensures read { result ≡ 5 → (it : AskedData) × (desk_by words.now ≡ Some (Run it)) × ReadFails (F.faults shelf.old) (F.faults shelf.new) (S.faults script.old) (S.faults script.new) it }
    ensures write { result ≡ 6 → Rose (K.faults out.old) (K.faults out.new) }
    ensures long { result ≡ 8 → IfSome (S.left script.old) (λ bytes. most_firings < length bytes) }
{
    match desk_asked(alloc, words) {
        Ok(Some(DeskWords::Run(asked))) => {
            serve::<E, D, F, S, K>(alloc, asked, shelf, script, out)
        }
        Ok(Some(DeskWords::Help)) => say(out, HELP, 0),
        Ok(Some(DeskWords::Version)) => say(out, VERSION, 0),
        Ok(None) => say(out, USAGE, 2),
        Err(_) => 7,
    }
}
