ghost use Rattle.std.specs.Prelude.{◌≡◌, ◌⊎◌, ◌<◌, ◌≤◌, ◌^◌, length, List, ℕ, None, Some, IfSome};
ghost use Rattle.fx_io.specs.Outside.{append, Rose};
ghost use Rattle.command_words.specs.Desk.{desk_by};
ghost use Rattle.replay.specs.Wanted.{Files};
ghost use Rattle.command_words.specs.declared.desk.DeskAsked.{DeskAsked};
ghost use Rattle.command_words.specs.declared.desk.DeskWords.TheVariants.{Run};
ghost use Rattle.desk.specs.Causes.{ReadFails};
ghost use Rattle.desk.specs.Meanings.{both};
ghost use Rattle.answer_lines.specs.declared.lines.Detail.TheVariants.{Full};
ghost use Rattle.desk.specs.Report.{IsPrompt, IsServed, IsStopped, usage};
ghost use Rattle.desk.specs.Wanted.{wanted};
ghost use Rattle.session_model.specs.Counts.{held_counts};
ghost use Rattle.session_model.specs.Gives.{gives, fires, gives_in, fires_in};

use fx_io::{Shelf, Source};
use fx_store::FileSink;
use session::{DetailedSession, Session};
use std::alloc::Global;

/// Does all that the program `desk` does for the words behind its own name, and answers the status.
///
/// It runs a live script over a rule file, and answers in objects of JSON, or in the lines of text of `replay`: from the image of the file that is
/// named, where that is there, to the end of the script, and puts the image of what the run comes to in its place. Besides the commands of every script
/// a line may ask to put the image of that moment, for the facts that are kept, and for counts. A fire command makes at most so many firings; where it
/// wants more, and a match is pending still, a line says so, and the run goes on. Each line of the script is closed by a line of its own.
///
/// The status is 0 where the script was read to its end, 1 where a line of it was a fault, 2 where the words are refused, 3 where the rule file
/// is missing or refused, 5 where a read failed, 6 where a write failed, of the output or of an image, 7 where memory was refused, 8 where the script has
/// more than 2^55 bytes, 9 where an image is refused, and 11 where 2^55 firings were made.
pub fn desk<F: Shelf, S: Source<K>, K: FileSink>(
    alloc: Global,
    words: &[String],
    shelf: &mut F,
    script: &mut S,
    out: &mut K,
) -> u8
    // It may be run over each source that asks for no more than this: whenever more is asked of it, all that the lines print whose ends were
    // taken is written, and nothing else, and the images are put of those of them that save. This is required of each single call of `read`, so it holds of a run too that never comes to its end.
    requires prompt { (bytes : List ℕ) (now : K)
        → ((files : Files) → F.files shelf.old ≡ Some files → IsPrompt (both gives fires held_counts (gives_in Full) (fires_in Full) held_counts) (wanted words.now files) bytes (K.written out.old) (K.written now) (K.files out.old) (K.files now))
        → S.may_ask script.old bytes now }

    // Where the shelf and the script tell their bytes: what is written and put, by the status.
    ensures served { (files : Files) (bytes : List ℕ) → F.files shelf.old ≡ Some files → S.left script.old ≡ Some bytes
        → IsServed (both gives fires held_counts (gives_in Full) (fires_in Full) held_counts) (wanted words.now files) bytes (K.written out.old) (K.written out.new) (K.files out.old) (K.files out.new) result }

    // There too, where a read failed: what the lines print that were taken with their ends.
    ensures stopped { (files : Files) (bytes : List ℕ) → F.files shelf.old ≡ Some files → S.left script.old ≡ Some bytes → result ≡ 5
        → IsStopped (both gives fires held_counts (gives_in Full) (fires_in Full) held_counts) (wanted words.now files) bytes (S.left script.new) (K.written out.old) (K.written out.new) (K.files out.old) (K.files out.new) }

    // Whatever is told: the usage line.
    ensures usage { result ≡ 2 → K.written out.new ≡ append (K.written out.old) usage }
    ensures words { result ≡ 2 → desk_by words.now ≡ None }
    ensures answers { (result ≤ 3) ⊎ ((5 ≤ result) × (result ≤ 9)) ⊎ (result ≡ 11) }

    // The causes of the answers, of whatever shelf, store, script and sink.
    ensures read { result ≡ 5 → (it : DeskAsked) × (desk_by words.now ≡ Some (Run it)) × ReadFails (F.faults shelf.old) (F.faults shelf.new) (S.faults script.old) (S.faults script.new) it }
    ensures write { result ≡ 6 → Rose (K.faults out.old) (K.faults out.new) }
    ensures long { result ≡ 8 → IfSome (S.left script.old) (λ bytes. 2 ^ 55 < length bytes) }

    // Where nothing of the outside failed and the script has at most 2^55 bytes, it is served, or memory was refused.
    ensures completes { (bytes : List ℕ) → S.left script.old ≡ Some bytes → length bytes ≤ 2 ^ 55
        → ((name : List ℕ) → Rose (F.faults shelf.old name) (F.faults shelf.new name) → ⊥) → (Rose (S.faults script.old) (S.faults script.new) → ⊥)
        → (Rose (K.faults out.old) (K.faults out.new) → ⊥)
        → (result ≤ 3) ⊎ (result ≡ 7) ⊎ (result ≡ 9) ⊎ (result ≡ 11) }
{
    desk::desk::<Session, DetailedSession, F, S, K>(alloc, words, shelf, script, out)
}
