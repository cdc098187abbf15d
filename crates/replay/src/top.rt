//! The calls of the program: what is done with a program, with a rule file, and with what the words ask for.
ghost use Rattle.std.specs.Prelude.{◌≡◌, ◌≢◌, ◌⊎◌, ◌<◌, ◌≤◌, ◌^◌, [], List, Option, ℕ, length, option_map, Some, None, IfSome};
ghost use Rattle.fx_io.specs.Outside.{Rose, append, count_after};
ghost use Rattle.command_words.specs.declared.asking.Asked.TheVariants.{RuleFile};
ghost use Rattle.command_words.specs.declared.asking.Asked.{Asked as AskedFor};
ghost use Rattle.command_words.specs.Asked.{asked_by, IsWithinBounds};
ghost use Rattle.rule_model.specs.declared.life.LifeTable.{LifeTable as LifeTableData};
ghost use Rattle.life_meaning.specs.Tables.{AreLives};
ghost use Rattle.rule_world.specs.Programs.{IsRunnable};
ghost use Rattle.replay.specs.Behind.{GoesOn, IsRefusedOn, IsTakenAgain, IsUnread, KeepWorlds};
ghost use Rattle.replay.specs.Beginnings.{CanBegin, IsBeginningFor, RunsIn};
ghost use Rattle.replay.specs.Calls.{ShelfSeen, seen_of_shelf, seen, wanted_told, RunOf};
ghost use Rattle.replay.specs.Notices.{usage};
ghost use Rattle.replay.specs.Refusals.{refusal_text};
ghost use Rattle.replay.specs.Report.{Report, IsFront, IsReport, Reports, IsWritten, IsStopped, TakesFor, IsLong, IsPrompt};
ghost use Rattle.replay.specs.Wanted.{Files, runs, wanted, wanted_at, wanted_by, wanted_by_name, IfRefuses, ReadsFile, RunsScript, SavesRun, HasRefused, IsUnfit, ReadFails, MayRefuse};

use crate::beginning::Beginning;
use crate::checkpoint_file::{CheckpointFault, beginning, shows_rules};
use crate::load::run_load;
use crate::modes::{accept, tell_lives};
use crate::proving::tell_proof;
use crate::refusal::{RefusalCode, whole_file};
use crate::refused_checkpoint::refuse_checkpoint;
use crate::rule_file::{FileFault, Reading, read_rules, read_whole};
use crate::running::run_program;
use crate::saving::save_program;
use crate::saying::{refuse, say};
use command_words::{Asked, Mode, asked};
use engine::Engine;
use fx_base::Text;
use fx_io::{Shelf, Sink, Source};
use rule_model::Program;
use std::alloc::Global;

/// The most bytes that a rule file may have.
pub const FILE_MAX: usize = 1_048_576;

/// What is written where the words are refused.
const USAGE: &[u8] =
    b"usage: replay [--mode run|check|lives|save|proof] [--limit N] [--resume NAME] RULES | replay [--limit N] --gen N\n";

/// What is done with a rule file, with at most so many firings.
#[derive(Clone, Copy)]
struct Plan {
    mode: Mode,
    limit: u64,
}

// Does with the program of an accepted file what the mode asks for, where a run has this beginning.
fn do_mode<E: Engine, S: Source<K>, K: Sink>(
    alloc: Global,
    plan: Plan,
    program: Program,
    beginning: Beginning,
    script: &mut S,
    out: &mut K,
) -> u8
    requires runnable { IsRunnable program }
    requires low { plan.limit ≤ 1000000 }
    requires prompt { (bytes : List ℕ) (now : K)
        → IsPrompt E.gives E.fires E.counts (wanted_at plan.mode plan.limit beginning program) bytes (K.written out.old) (K.written now) → S.may_ask script.old bytes now }
    ensures run { (name : List ℕ) (image : Option (List ℕ)) (first last : ShelfSeen) → IsBeginningFor first.files plan.mode image beginning
        → RunOf E.gives E.fires E.counts (Some (RuleFile name plan.mode plan.limit image)) (Some (wanted_at plan.mode plan.limit beginning program))
        (seen first (S.left script.old) (S.given script.old) (S.faults script.old) (K.written out.old) (K.faults out.old))
        (seen last (S.left script.new) (S.given script.new) (S.faults script.new) (K.written out.new) (K.faults out.new)) result }
    ensures no_run { (RunsIn plan.mode → ⊥) → script.new ≡ script.old }
    ensures untouched { plan.mode ≢ Mode.Save → result ≡ 9 → script.new ≡ script.old }
    ensures unread { ((table : LifeTableData) → AreLives program table → CanBegin program table beginning → ⊥) → script.new ≡ script.old }
{
    match plan.mode {
        Mode::Run => run_program::<E, S, K>(alloc, program, beginning, plan.limit, script, out),
        Mode::Check => accept(alloc, &program, out),
        Mode::Lives => tell_lives(alloc, &program, out),
        Mode::Proof => tell_proof(alloc, &program, out),
        Mode::Save => save_program::<E, S, K>(alloc, program, beginning, plan.limit, script, out),
    }
}

// Does with the rule file of this name what the mode asks for, behind the checkpoint that is named, if one is.
fn answer<E: Engine, F: Shelf, S: Source<K>, K: Sink>(
    alloc: Global,
    plan: Plan,
    name: &str,
    image: Option<&str>,
    shelf: &mut F,
    script: &mut S,
    out: &mut K,
) -> u8
    requires low { plan.limit ≤ 1000000 }
    requires prompt { let asked = Some (RuleFile name.now plan.mode plan.limit (option_map (λ it. it.now) image)) in
        (bytes : List ℕ) (now : K)
        → ((files : Files) → F.files shelf.old ≡ Some files → IsPrompt E.gives E.fires E.counts (wanted_by asked files) bytes (K.written out.old) (K.written now))
        → S.may_ask script.old bytes now }
    ensures run { let asked = Some (RuleFile name.now plan.mode plan.limit (option_map (λ it. it.now) image.entry)) in
        RunOf E.gives E.fires E.counts asked (wanted_told asked (F.files shelf.old))
        (seen (seen_of_shelf (F.files shelf.old) (F.faults shelf.old) (F.misses shelf.old)) (S.left script.old) (S.given script.old) (S.faults script.old) (K.written out.old) (K.faults out.old))
        (seen (seen_of_shelf (F.files shelf.new) (F.faults shelf.new) (F.misses shelf.new)) (S.left script.new) (S.given script.new) (S.faults script.new) (K.written out.new) (K.faults out.new)) result }
    ensures untouched { result ≡ 3 → script.new ≡ script.old }
    ensures unresumed { plan.mode ≢ Mode.Save → result ≡ 9 → script.new ≡ script.old }
    ensures unread { let asked = Some (RuleFile name.now plan.mode plan.limit (option_map (λ it. it.now) image.entry)) in
        (files : Files) → F.files shelf.old ≡ Some files → IsUnread (wanted_by asked files) → script.new ≡ script.old }
    ensures no_run { (RunsIn plan.mode → ⊥) → script.new ≡ script.old }
{
    let file = match read_whole(alloc, shelf, name, FILE_MAX + 1) {
        Ok(file) => file,
        Err(FileFault::Missing) => return refuse(alloc, out, whole_file(RefusalCode::Missing)),
        Err(FileFault::ReadFault) => return 5,
        Err(FileFault::NoMemory) => return 7,
    };
    let shows = shows_rules(plan.mode, image);
    let (reading, rules) = match read_rules(alloc, &file, shows) {
        Ok(read) => read,
        Err(_) => return 7,
    };
    let program = match reading {
        Reading::Accepted(program) => program,
        Reading::Refused(refusal) => return refuse(alloc, out, refusal),
    };
    match beginning(alloc, plan.mode, image, rules, shelf) {
        Ok(beginning) => do_mode::<E, S, K>(alloc, plan, program, beginning, script, out),
        Err(CheckpointFault::Refused(code)) => refuse_checkpoint(alloc, out, code),
        Err(CheckpointFault::ReadFault) => 5,
        Err(CheckpointFault::NoMemory) => 7,
    }
}

fn lent(name: &Option<Text>) -> Option<&str>
    ensures { option_map (λ it. it.now) result ≡ name.now }
{
    match name {
        Some(name) => Some(name.as_str()),
        None => None,
    }
}

// Does what the words ask for.
fn do_asked<E: Engine, F: Shelf, S: Source<K>, K: Sink>(
    alloc: Global,
    asked: Option<Asked>,
    shelf: &mut F,
    script: &mut S,
    out: &mut K,
) -> u8
    requires within { IfSome asked IsWithinBounds }
    requires prompt { (bytes : List ℕ) (now : K)
        → ((files : Files) → F.files shelf.old ≡ Some files → IsPrompt E.gives E.fires E.counts (wanted_by asked files) bytes (K.written out.old) (K.written now))
        → S.may_ask script.old bytes now }
    ensures run { RunOf E.gives E.fires E.counts asked (wanted_told asked (F.files shelf.old))
        (seen (seen_of_shelf (F.files shelf.old) (F.faults shelf.old) (F.misses shelf.old)) (S.left script.old) (S.given script.old) (S.faults script.old) (K.written out.old) (K.faults out.old))
        (seen (seen_of_shelf (F.files shelf.new) (F.faults shelf.new) (F.misses shelf.new)) (S.left script.new) (S.given script.new) (S.faults script.new) (K.written out.new) (K.faults out.new)) result }
    ensures untouched { (result ≡ 2) ⊎ (result ≡ 3) → script.new ≡ script.old }
    ensures unresumed { result ≡ 9 → IfSome asked (λ it. ¬ SavesRun it) → script.new ≡ script.old }
    ensures unread { (files : Files) → F.files shelf.old ≡ Some files → IsUnread (wanted_by asked files) → script.new ≡ script.old }
    ensures no_run { IfSome asked (λ it. ¬ RunsScript it) → script.new ≡ script.old }
    ensures no_file { IfSome asked (λ it. ¬ ReadsFile it) → shelf.new ≡ shelf.old }
{
    match asked {
        Some(
            Asked::RuleFile {
                name,
                mode,
                limit,
                image,
            },
        ) => {
            let plan = Plan { mode, limit };
            answer::<E, F, S, K>(alloc, plan, name.as_str(), lent(&image), shelf, script, out)
        }
        Some(Asked::Load { number, limit }) => run_load::<E, K>(alloc, number, limit, out),
        None => say(out, USAGE, 2),
    }
}

/// Runs a script over the rule file of this name with an engine of this type, with at most so many firings, and answers
/// the status: 0 where the script was read to its end, 1 where one of its lines was a fault, 3 where the rule file is
/// missing or refused, 4 where a match was pending when no firing was left, 5 where a read failed, 6 where a write failed,
/// 7 where memory was refused, and 8 where the script has more than 1 GiB.
pub fn run_rules<E: Engine, F: Shelf, S: Source<K>, K: Sink>(
    alloc: Global,
    name: &str,
    limit: u64,
    shelf: &mut F,
    script: &mut S,
    out: &mut K,
) -> u8
    requires some { 1 ≤ limit }
    requires low { limit ≤ 1000000 }

    // Whenever more is asked of the script, all that the lines print whose ends were taken is written, and nothing else.
    requires prompt { (bytes : List ℕ) (now : K)
        → ((files : Files) → F.files shelf.old ≡ Some files
        → IsPrompt E.gives E.fires E.counts (wanted_by_name (runs limit) files name.now) bytes (K.written out.old) (K.written now))
        → S.may_ask script.old bytes now }

    // Where the shelf and the script tell their bytes: with a status up to 4 exactly the report, else a front of it.
    ensures exact { (files : Files) (bytes : List ℕ) → F.files shelf.old ≡ Some files → S.left script.old ≡ Some bytes → result ≤ 4
        → (r : Report) × IsReport E.gives E.fires E.counts (wanted_by_name (runs limit) files name.now) bytes r × Reports (K.written out.old) (K.written out.new) result r }
    ensures front { (files : Files) (bytes : List ℕ) → F.files shelf.old ≡ Some files → S.left script.old ≡ Some bytes → 5 ≤ result
        → IsFront E.gives E.fires E.counts (wanted_by_name (runs limit) files name.now) bytes (K.written out.old) (K.written out.new) }
    ensures long { (files : Files) (bytes : List ℕ) → F.files shelf.old ≡ Some files → S.left script.old ≡ Some bytes
        → result ≡ 8 → IsLong E.gives E.fires E.counts (wanted_by_name (runs limit) files name.now) bytes }

    // There too, where a read failed or the script is too long: what the lines print that were taken with their ends.
    ensures stopped { (files : Files) (bytes : List ℕ) → F.files shelf.old ≡ Some files → S.left script.old ≡ Some bytes → (result ≡ 5) ⊎ (result ≡ 8)
        → IsStopped E.gives E.fires E.counts (wanted_by_name (runs limit) files name.now) bytes (S.left script.new) (K.written out.old) (K.written out.new) }

    // Where the shelf tells its files, and the script may tell nothing: a refusal is the one that is wanted.
    ensures refusal { (files : Files) → F.files shelf.old ≡ Some files → result ≡ 3
        → IfRefuses (wanted_by_name (runs limit) files name.now) (λ refusal. K.written out.new ≡ append (K.written out.old) (refusal_text refusal)) }

    // Where nothing of the outside failed and the script has at most 1 GiB, the report is done, or memory was refused.
    ensures completes { (bytes : List ℕ) → S.left script.old ≡ Some bytes → length bytes ≤ 2 ^ 30
        → (Rose (F.faults shelf.old name.now) (F.faults shelf.new name.now) → ⊥)
        → (Rose (S.faults script.old) (S.faults script.new) → ⊥) → (Rose (K.faults out.old) (K.faults out.new) → ⊥)
        → (result ≤ 4) ⊎ (result ≡ 7) }
    ensures answers { (result ≤ 1) ⊎ ((3 ≤ result) × (result ≤ 8)) }

    // The causes of the answers, of whatever shelf, script and sink.
    ensures file { result ≡ 3 → Rose (F.misses shelf.old name.now) (F.misses shelf.new name.now) ⊎ HasRefused (F.files shelf.old) name.now }
    ensures read { result ≡ 5 → Rose (F.faults shelf.old name.now) (F.faults shelf.new name.now) ⊎ Rose (S.faults script.old) (S.faults script.new) }
    ensures write { result ≡ 6 → Rose (K.faults out.old) (K.faults out.new) }
    ensures taken { (n : ℕ) × (S.given script.new ≡ count_after (S.given script.old) n) × TakesFor result n }

    // The script is left alone where it is not run, and read to its end where its run comes there.
    ensures untouched { result ≡ 3 → script.new ≡ script.old }
    ensures nothing_left { result ≤ 1 → IfSome (S.left script.new) (λ bytes. bytes ≡ []) }
{
    let plan = Plan {
        mode: Mode::Run,
        limit,
    };
    answer::<E, F, S, K>(alloc, plan, name, None, shelf, script, out)
}

/// Does all that the program does for the words behind its own name, with an engine of this type, and answers the status.
/// In the mode `run` it runs the script over the rule file, as [`run_rules`] does, with the limit of firings of the words. In the mode `save` it does the same, and
/// writes the image of what the run comes to in place of its lines, or the line of the limit, where that was met. Both go on from the image of
/// a checkpoint, where one is named: the lines, their numbers, the limit and the status are those of the whole script, of which the lines
/// before the image were read already (clause `goes_on`; law `script_run::laws::a_run_goes_on_behind_its_first_lines`). In the mode `check` it writes that the
/// rule file is accepted, in the mode `lives` how long, in milliseconds, the events of its types matter, and in the mode `proof` certificates
/// of that, which were confirmed: these leave the script alone, and the limit means nothing to them. Where the words ask for the load of a
/// number, it runs the load's script over the load's rule file, with the limit of the words, prints nothing of that, and writes how many
/// lines it would print, and how many of these say what fires and what is faulty: the shelf and the script are left alone.
///
/// The status is 0 where the script was read to its end, or the rule file of another mode is accepted, 1 where a line of the script
/// was a fault, 2 where the words are refused, 3 where the rule file is missing or refused, 4 where a match was pending when no firing
/// was left, 5 where a read failed, 6 where a write failed, 7 where memory was refused, 8 where the script has more than 1 GiB, and 9 where a
/// checkpoint is refused: the one that is named, which is missing, too long, no image, one of other rules, or one that does not fit them, or
/// the one to be written, which is too long, or from whose numbers no run could go on. Of these the modes that run no script have 0, 3, 5, 6
/// and 7, and a load has those of its run, 0, 1 and 4, besides 6 and 7: its rule file is accepted.
pub fn replay<E: Engine, F: Shelf, S: Source<K>, K: Sink>(
    alloc: Global,
    words: &[String],
    shelf: &mut F,
    script: &mut S,
    out: &mut K,
) -> u8
    // It may be run over each source that asks for no more than this: whenever more is asked of it, all that the lines print whose ends were
    // taken is written, and nothing else; where no lines are printed, nothing is. This is required of each single call of `read`, so it holds of
    // a run too that never comes to its end.
    requires prompt { (bytes : List ℕ) (now : K)
        → ((files : Files) → F.files shelf.old ≡ Some files
        → IsPrompt E.gives E.fires E.counts (wanted words.now files) bytes (K.written out.old) (K.written now))
        → S.may_ask script.old bytes now }

    // Where the shelf and the script tell their bytes: with a status up to 4, and with 9, exactly the report, else a front of it.
    ensures exact { (files : Files) (bytes : List ℕ) → F.files shelf.old ≡ Some files → S.left script.old ≡ Some bytes → result ≤ 4
        → (r : Report) × IsReport E.gives E.fires E.counts (wanted words.now files) bytes r × Reports (K.written out.old) (K.written out.new) result r }
    ensures checkpoint { (files : Files) (bytes : List ℕ) → F.files shelf.old ≡ Some files → S.left script.old ≡ Some bytes → result ≡ 9
        → (r : Report) × IsReport E.gives E.fires E.counts (wanted words.now files) bytes r × Reports (K.written out.old) (K.written out.new) result r }
    ensures front { (files : Files) (bytes : List ℕ) → F.files shelf.old ≡ Some files → S.left script.old ≡ Some bytes → 5 ≤ result
        → IsFront E.gives E.fires E.counts (wanted words.now files) bytes (K.written out.old) (K.written out.new) }
    ensures long { (files : Files) (bytes : List ℕ) → F.files shelf.old ≡ Some files → S.left script.old ≡ Some bytes
        → result ≡ 8 → IsLong E.gives E.fires E.counts (wanted words.now files) bytes }

    // There too, where a read failed or the script is too long: what the lines print that were taken with their ends.
    ensures stopped { (files : Files) (bytes : List ℕ) → F.files shelf.old ≡ Some files → S.left script.old ≡ Some bytes → (result ≡ 5) ⊎ (result ≡ 8)
        → IsStopped E.gives E.fires E.counts (wanted words.now files) bytes (S.left script.new) (K.written out.old) (K.written out.new) }

    // Behind the image of what the run of an earlier script comes to, with an engine whose changes and firings lead from worlds that runs come to
    // to such worlds: the lines and the status of both scripts as one, without the lines of the first, or the image of both. What was saved is
    // taken again.
    ensures goes_on { KeepWorlds E.gives E.fires
        → (files : Files) (first second : List ℕ) → F.files shelf.old ≡ Some files → S.left script.old ≡ Some second → result ≤ 4
        → GoesOn E.gives E.fires E.counts (wanted words.now files) first second (K.written out.old) (K.written out.new) result }
    ensures refused_on { KeepWorlds E.gives E.fires
        → (files : Files) (first second : List ℕ) → F.files shelf.old ≡ Some files → S.left script.old ≡ Some second → result ≡ 9
        → IsRefusedOn E.gives E.fires E.counts (wanted words.now files) first second (K.written out.old) (K.written out.new) result }
    ensures taken_again { KeepWorlds E.gives E.fires
        → (files : Files) (first second : List ℕ) → F.files shelf.old ≡ Some files → S.left script.old ≡ Some second → result ≤ 1
        → IsTakenAgain E.gives E.fires E.counts (wanted words.now files) first second (K.written out.old) (K.written out.new) }

    // Where no script is to be run, whatever the script tells, and where no rule file is to be read, as of a load, whatever shelf and script
    // tell: exactly the report, or a front of it.
    ensures no_script { (files : Files) (bytes : List ℕ) → F.files shelf.old ≡ Some files → IfSome (asked_by words.now) (λ asked. ¬ RunsScript asked)
        → IsWritten E.gives E.fires E.counts (wanted words.now files) bytes (K.written out.old) (K.written out.new) result }
    ensures load { (files : Files) (bytes : List ℕ) → IfSome (asked_by words.now) (λ asked. ¬ ReadsFile asked)
        → IsWritten E.gives E.fires E.counts (wanted words.now files) bytes (K.written out.old) (K.written out.new) result }

    // Whatever the script tells: the usage line, and, where the shelf tells its files, the refusal that is wanted.
    ensures usage { result ≡ 2 → K.written out.new ≡ append (K.written out.old) usage }
    ensures refusal { (files : Files) → F.files shelf.old ≡ Some files → result ≡ 3
        → IfRefuses (wanted words.now files) (λ refusal. K.written out.new ≡ append (K.written out.old) (refusal_text refusal)) }

    // Where nothing of the outside failed and the script has at most 1 GiB, the report is done, or memory was refused. A checkpoint is refused,
    // with 9, where one is asked for alone (`refused_checkpoint`).
    ensures completes { (bytes : List ℕ) → S.left script.old ≡ Some bytes → length bytes ≤ 2 ^ 30
        → ((name : List ℕ) → Rose (F.faults shelf.old name) (F.faults shelf.new name) → ⊥)
        → (Rose (S.faults script.old) (S.faults script.new) → ⊥) → (Rose (K.faults out.old) (K.faults out.new) → ⊥)
        → (result ≤ 4) ⊎ (result ≡ 7) ⊎ (result ≡ 9) }
    ensures no_script_completes { IfSome (asked_by words.now) (λ asked. ¬ RunsScript asked)
        → ((name : List ℕ) → Rose (F.faults shelf.old name) (F.faults shelf.new name) → ⊥) → (Rose (K.faults out.old) (K.faults out.new) → ⊥)
        → (result ≤ 4) ⊎ (result ≡ 7) }
    ensures load_completes { IfSome (asked_by words.now) (λ asked. ¬ ReadsFile asked) → (Rose (K.faults out.old) (K.faults out.new) → ⊥)
        → (result ≤ 2) ⊎ (result ≡ 4) ⊎ (result ≡ 7) }
    ensures answers { result ≤ 9 }

    // The causes of the answers, of whatever shelf, script and sink.
    ensures words { result ≡ 2 → asked_by words.now ≡ None }
    ensures not_words { asked_by words.now ≡ None → (result ≡ 2) ⊎ ((6 ≤ result) × (result ≤ 7)) }
    ensures file { result ≡ 3 → IfSome (asked_by words.now) (IsUnfit (F.files shelf.old) (F.misses shelf.old) (F.misses shelf.new)) }
    ensures read { result ≡ 5 → (it : AskedFor) × (asked_by words.now ≡ Some it)
        × ReadFails (F.faults shelf.old) (F.faults shelf.new) (S.faults script.old) (S.faults script.new) it }
    ensures refused_checkpoint { result ≡ 9 → (it : AskedFor) × (asked_by words.now ≡ Some it)
        × MayRefuse (F.files shelf.old) (F.misses shelf.old) (F.misses shelf.new) it }
    ensures write { result ≡ 6 → Rose (K.faults out.old) (K.faults out.new) }
    ensures taken { (n : ℕ) × (S.given script.new ≡ count_after (S.given script.old) n) × TakesFor result n }

    // The script is left alone where it is not run, as behind an image that is refused, and read to its end where its run comes there; the
    // shelf, where no rule file of it is asked for.
    ensures untouched { (result ≡ 2) ⊎ (result ≡ 3) → script.new ≡ script.old }
    ensures unresumed { result ≡ 9 → IfSome (asked_by words.now) (λ asked. ¬ SavesRun asked) → script.new ≡ script.old }
    ensures unread { (files : Files) → F.files shelf.old ≡ Some files → IsUnread (wanted words.now files) → script.new ≡ script.old }
    ensures no_run { IfSome (asked_by words.now) (λ asked. ¬ RunsScript asked) → script.new ≡ script.old }
    ensures nothing_left { result ≤ 1 → IfSome (asked_by words.now) (λ asked. RunsScript asked
        → IfSome (S.left script.new) (λ bytes. bytes ≡ [])) }
    ensures no_file { IfSome (asked_by words.now) (λ asked. ¬ ReadsFile asked) → shelf.new ≡ shelf.old }
{
    match asked(alloc, words) {
        Ok(asked) => do_asked::<E, F, S, K>(alloc, asked, shelf, script, out),
        Err(_) => 7,
    }
}
