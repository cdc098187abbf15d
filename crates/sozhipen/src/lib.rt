//! The programs `replay` and `desk`: the top calls with the engine `Session`. The contract of each is what the project promises of its runs.
//! Where memory is refused, each answers status 7.
#![tactic(auto)]

mod desk_call;

ghost use Rattle.std.specs.Prelude.{◌≡◌, ◌⊎◌, ◌<◌, ◌≤◌, ◌^◌, [], List, ℕ, length, Some, None, IfSome};
ghost use Rattle.fx_io.specs.Outside.{Rose, append, count_after};
ghost use Rattle.command_words.specs.declared.asking.Asked.{Asked};
ghost use Rattle.command_words.specs.Asked.{asked_by};
ghost use Rattle.replay.specs.Behind.{GoesOn, IsRefusedOn, IsTakenAgain, IsUnread};
ghost use Rattle.replay.specs.Refusals.{refusal_text};
ghost use Rattle.replay.specs.Report.{Report, IsFront, IsReport, Reports, IsWritten, IsStopped, TakesFor, IsLong, IsPrompt};
ghost use Rattle.replay.specs.Notices.{usage};
ghost use Rattle.replay.specs.Wanted.{Files, wanted, IfRefuses, ReadsFile, RunsScript, SavesRun, IsUnfit, ReadFails, MayRefuse};
ghost use Rattle.session_model.specs.Counts.{held_counts};
ghost use Rattle.session_model.specs.Gives.{gives, fires};

pub use desk_call::desk;
use fx_io::{Shelf, Sink, Source};
use replay::replay;
use session::Session;
use std::alloc::Global;

/// Does all that the program does for the words behind its own name, and answers the status.
/// In the mode `run` it runs the script over the rule file, with the limit of firings of the words. In the mode `save` it does the same, and
/// writes the image of what the run comes to in place of its lines, or the line of the limit, where that was met. Both go on from the image of
/// a checkpoint, where one is named: the lines, their numbers, the limit and the status are those of the whole script, of which the lines
/// before the image were read already (clause `goes_on`; law `script_run::laws::a_run_goes_on_behind_its_first_lines`). In the mode `check` it writes that the
/// rule file is accepted, in the mode `lives` how long, in milliseconds, the events of its types matter, and in the mode `proof` certificates
/// of that, which were confirmed: these leave the script alone, and the limit means nothing to them. Where the words ask for the load of a
/// number, it runs the load's script over the load's rule file, with the limit of the words, prints nothing of that, and writes how many
/// lines it would print, and how many of these say what fires and what is faulty: the shelf and the script are left alone. The report of a run is that of an engine which keeps
/// everything that was inserted and takes every match anew after each change (`gives` and `fires` of `session_model/specs/Gives.antt`). The
/// numbers of its `held` lines alone are those of what is kept of that: for each event type how many of its events are kept
/// (`held_counts` of `session_model/specs/Counts.antt`).
///
/// The status is 0 where the script was read to its end, or the rule file of another mode is accepted, 1 where a line of the script
/// was a fault, 2 where the words are refused, 3 where the rule file is missing or refused, 4 where a match was pending when no firing
/// was left, 5 where a read failed, 6 where a write failed, 7 where memory was refused, 8 where the script has more than 1 GiB, and 9 where a
/// checkpoint is refused: the one that is named, which is missing, too long, no image, one of other rules, or one that does not fit them, or
/// the one to be written, which is too long, or from whose numbers no run could go on. Of these the modes that run no script have 0, 3, 5, 6
/// and 7, and a load has those of its run, 0, 1 and 4, besides 6 and 7: its rule file is accepted.
pub fn run<F: Shelf, S: Source<K>, K: Sink>(
    alloc: Global,
    words: &[String],
    shelf: &mut F,
    script: &mut S,
    out: &mut K,
) -> u8
    // It may be run over each source that asks for no more than this: whenever more is asked of it, all that the lines print whose ends were
    // taken is written, and nothing else; where no lines are printed, nothing is. This is required of each single call of `read`, so it holds of
    // a run too that never comes to its end.
    requires prompt { (bytes : List ℕ) (now : K)
        → ((files : Files) → F.files shelf.old ≡ Some files
        → IsPrompt gives fires held_counts (wanted words.now files) bytes (K.written out.old) (K.written now))
        → S.may_ask script.old bytes now }

    // Where the shelf and the script tell their bytes: with a status up to 4, and with 9, exactly the report, else a front of it.
    ensures exact { (files : Files) (bytes : List ℕ) → F.files shelf.old ≡ Some files → S.left script.old ≡ Some bytes → result ≤ 4
        → (r : Report) × IsReport gives fires held_counts (wanted words.now files) bytes r × Reports (K.written out.old) (K.written out.new) result r }
    ensures checkpoint { (files : Files) (bytes : List ℕ) → F.files shelf.old ≡ Some files → S.left script.old ≡ Some bytes → result ≡ 9
        → (r : Report) × IsReport gives fires held_counts (wanted words.now files) bytes r × Reports (K.written out.old) (K.written out.new) result r }
    ensures front { (files : Files) (bytes : List ℕ) → F.files shelf.old ≡ Some files → S.left script.old ≡ Some bytes → 5 ≤ result
        → IsFront gives fires held_counts (wanted words.now files) bytes (K.written out.old) (K.written out.new) }
    ensures long { (files : Files) (bytes : List ℕ) → F.files shelf.old ≡ Some files → S.left script.old ≡ Some bytes
        → result ≡ 8 → IsLong gives fires held_counts (wanted words.now files) bytes }

    // There too, where a read failed or the script is too long: what the lines print that were taken with their ends.
    ensures stopped { (files : Files) (bytes : List ℕ) → F.files shelf.old ≡ Some files → S.left script.old ≡ Some bytes → (result ≡ 5) ⊎ (result ≡ 8)
        → IsStopped gives fires held_counts (wanted words.now files) bytes (S.left script.new) (K.written out.old) (K.written out.new) }

    // Behind the image of what the run of an earlier script comes to: the lines and the status of both scripts as one, without the lines of
    // the first, or the image of both, with 9 too, where that is refused. What was saved is taken as a checkpoint again.
    ensures goes_on { (files : Files) (first second : List ℕ) → F.files shelf.old ≡ Some files → S.left script.old ≡ Some second → result ≤ 4
        → GoesOn gives fires held_counts (wanted words.now files) first second (K.written out.old) (K.written out.new) result }
    ensures refused_on { (files : Files) (first second : List ℕ) → F.files shelf.old ≡ Some files → S.left script.old ≡ Some second → result ≡ 9
        → IsRefusedOn gives fires held_counts (wanted words.now files) first second (K.written out.old) (K.written out.new) result }
    ensures taken_again { (files : Files) (first second : List ℕ) → F.files shelf.old ≡ Some files → S.left script.old ≡ Some second → result ≤ 1
        → IsTakenAgain gives fires held_counts (wanted words.now files) first second (K.written out.old) (K.written out.new) }

    // Where no script is to be run, whatever the script tells, and where no rule file is to be read, as of a load, whatever shelf and script
    // tell: exactly the report, or a front of it.
    ensures no_script { (files : Files) (bytes : List ℕ) → F.files shelf.old ≡ Some files → IfSome (asked_by words.now) (λ asked. ¬ RunsScript asked)
        → IsWritten gives fires held_counts (wanted words.now files) bytes (K.written out.old) (K.written out.new) result }
    ensures load { (files : Files) (bytes : List ℕ) → IfSome (asked_by words.now) (λ asked. ¬ ReadsFile asked)
        → IsWritten gives fires held_counts (wanted words.now files) bytes (K.written out.old) (K.written out.new) result }

    // Whatever the script tells: the usage line, and, where the shelf tells its files, the refusal that is wanted.
    ensures usage { result ≡ 2 → K.written out.new ≡ append (K.written out.old) usage }
    ensures refusal { (files : Files) → F.files shelf.old ≡ Some files → result ≡ 3
        → IfRefuses (wanted words.now files) (λ refusal. K.written out.new ≡ append (K.written out.old) (refusal_text refusal)) }

    // Where nothing of the outside failed and the script has at most 1 GiB, the report is done, or memory was refused. A checkpoint is refused,
    // with 9, where one is asked for alone (`refused_checkpoint`).
    ensures completes { (bytes : List ℕ) → S.left script.old ≡ Some bytes → length bytes ≤ 2 ^ 30
        → ((name : List ℕ) → Rose (F.faults shelf.old name) (F.faults shelf.new name) → ⊥)
        → (Rose (S.faults script.old) (S.faults script.new) → ⊥) → (Rose (K.faults out.old) (K.faults out.new) → ⊥)
        → (result ≤ 4) ⊎ (result ≡ 7) ⊎ (result ≡ 9) }
    ensures no_script_completes { IfSome (asked_by words.now) (λ asked. ¬ RunsScript asked)
        → ((name : List ℕ) → Rose (F.faults shelf.old name) (F.faults shelf.new name) → ⊥) → (Rose (K.faults out.old) (K.faults out.new) → ⊥)
        → (result ≤ 4) ⊎ (result ≡ 7) }
    ensures load_completes { IfSome (asked_by words.now) (λ asked. ¬ ReadsFile asked) → (Rose (K.faults out.old) (K.faults out.new) → ⊥)
        → (result ≤ 2) ⊎ (result ≡ 4) ⊎ (result ≡ 7) }
    ensures answers { result ≤ 9 }

    // The causes of the answers, of whatever shelf, script and sink.
    ensures words { result ≡ 2 → asked_by words.now ≡ None }
    ensures not_words { asked_by words.now ≡ None → (result ≡ 2) ⊎ ((6 ≤ result) × (result ≤ 7)) }
    ensures file { result ≡ 3 → IfSome (asked_by words.now) (IsUnfit (F.files shelf.old) (F.misses shelf.old) (F.misses shelf.new)) }
    ensures read { result ≡ 5 → (it : Asked) × (asked_by words.now ≡ Some it)
        × ReadFails (F.faults shelf.old) (F.faults shelf.new) (S.faults script.old) (S.faults script.new) it }
    ensures refused_checkpoint { result ≡ 9 → (it : Asked) × (asked_by words.now ≡ Some it)
        × MayRefuse (F.files shelf.old) (F.misses shelf.old) (F.misses shelf.new) it }
    ensures write { result ≡ 6 → Rose (K.faults out.old) (K.faults out.new) }
    ensures taken { (n : ℕ) × (S.given script.new ≡ count_after (S.given script.old) n) × TakesFor result n }

    // The script is left alone where it is not run, as behind an image that is refused, and read to its end where its run comes there; the
    // shelf, where no rule file of it is asked for.
    ensures untouched { (result ≡ 2) ⊎ (result ≡ 3) → script.new ≡ script.old }
    ensures unresumed { result ≡ 9 → IfSome (asked_by words.now) (λ asked. ¬ SavesRun asked) → script.new ≡ script.old }
    ensures unread { (files : Files) → F.files shelf.old ≡ Some files → IsUnread (wanted words.now files) → script.new ≡ script.old }
    ensures no_run { IfSome (asked_by words.now) (λ asked. ¬ RunsScript asked) → script.new ≡ script.old }
    ensures nothing_left { result ≤ 1 → IfSome (asked_by words.now) (λ asked. RunsScript asked
        → IfSome (S.left script.new) (λ bytes. bytes ≡ [])) }
    ensures no_file { IfSome (asked_by words.now) (λ asked. ¬ ReadsFile asked) → shelf.new ≡ shelf.old }
{
    replay::<Session, F, S, K>(alloc, words, shelf, script, out)
}
