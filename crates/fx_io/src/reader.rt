ghost use Rattle.std.specs.Prelude.{◌≡◌, ◌⊎◌, ◌<◌, ◌≤◌, ◌^◌, ◌+◌, ◌-◌, ◌++◌, ℕ, List, true, false, [], Some, None, Ok, Err, IfOk, IfErr, IfSome, IsErrOf};
ghost use Rattle.fx_io.specs.Outside.{Rose, prepend, count_after};
ghost use Rattle.fx_io.specs.Asking.{Follows, MayAskMidLine, EndsOrMay};
ghost use Rattle.fx_io.specs.Lines.{lines_ahead, has_end, total_told, to_come};
ghost use Rattle.fx_io.specs.Answers.{Answers, LeavesNoEnd, ReadsBytes, GivesLine, UsesBytesUp};

use crate::reading::line_from;
use crate::window::Window;
use crate::{Line, LineFault, Source};
use fx_base::NoMemory;
use std::alloc::Global;
use std::marker::Model;

/// Reads the lines of a source.
#[derive(Drop)]
pub struct LineReader {
    alloc: Global,
    window: Window,
    line_max: usize,
    total_max: u64,
    taken: u64,
    fault: Option<LineFault>,
}

impl Model for LineReader {
    ghost use Rattle.std.specs.Prelude.{◌<◌, ◌≤◌, ◌+◌, ◌^◌};
    ghost use Rattle.fx_io.specs.Reader.{Reader};

    ghost Value = { Reader };

    ghost view = { λ a. record {
      kept = a.window;
      line_max = a.line_max;
      total_max = a.total_max;
      taken = a.taken;
      fault = a.fault;
    } };

    ghost invariant = { λ a. (a.total_max < 2 ^ 62) × (a.taken ≤ a.total_max + 1) };
}

impl LineReader {
    /// A reader of lines of at most `line_max` bytes, without their ends, which takes at most `total_max` bytes and
    /// one more. Takes the memory of its buffer.
    pub fn new(alloc: Global, line_max: usize, total_max: u64) -> Result<LineReader, NoMemory>
        requires line { line_max < 2 ^ 31 }
        requires total { total_max < 2 ^ 62 }
        ensures { IfOk result (λ reader. reader ≡ record {
          kept = [];
          line_max = line_max;
          total_max = total_max;
          taken = 0;
          fault = None;
        }) }
    {
        Ok(LineReader {
            alloc,
            window: Window::new(alloc)?,
            line_max,
            total_max,
            taken: 0,
            fault: None,
        })
    }

    /// Whether a line end is among the bytes kept. The next line is then answered without asking the source.
    pub fn is_ready(&self) -> bool
        ensures { result ≡ has_end self.now.kept }
    {
        self.window.has_end()
    }

    /// The next line. It asks the source only where no line end is kept. Once it answers a fault, each later call answers
    /// the same and leaves the source alone.
    pub fn next_line<K, S: Source<K>>(&mut self, source: &mut S, out: &K) -> Result<Line, LineFault>
        requires asks { self.old.fault ≡ None → MayAskMidLine (S.may_ask source.old) self.old.kept out.now }

        // Where the source tells its bytes: the first of the lines ahead is answered, and the others stay ahead.
        ensures line { IfOk result (λ line. Answers self.old.line_max line
            (lines_ahead self.old.kept (S.left source.old)) (lines_ahead self.new.kept (S.left source.new))) }
        ensures stops { self.old.fault ≡ None → IfErr result (λ fault. LeavesNoEnd fault
            (prepend self.old.kept (S.left source.old)) (S.left source.new)) }
        ensures total { total_told self.old.taken (S.left source.old) ≡ total_told self.new.taken (S.left source.new) }

        // Of any source: the answer is that for the bytes kept before the call and those read in it.
        ensures gives { self.old.fault ≡ None → (read : List ℕ)
            × ReadsBytes read self.old.taken self.new.taken (S.given source.old) (S.given source.new)
            (S.left source.old) (S.left source.new)
            × GivesLine self.old.line_max self.old.total_max result (self.old.kept ++ read)
            self.new.kept self.new.taken (S.left source.new) }

        // When the source may be asked then. It was asked in the middle of a line alone.
        ensures asks { self.old.fault ≡ None → (read : List ℕ)
            × Follows (S.may_ask source.old) read (S.may_ask source.new)
            × EndsOrMay self.old.line_max result (self.old.kept ++ read) self.new.kept (S.may_ask source.new) }

        // How many bytes were taken.
        ensures together { S.given source.new ≡ count_after (S.given source.old) (self.new.taken - self.old.taken) }
        ensures taken { self.old.taken ≤ self.new.taken }
        ensures at_most { self.new.taken ≤ self.old.total_max + 1 }
        ensures goes_on { IfOk result (λ line. UsesBytesUp line
            (to_come self.old.total_max self.old.taken self.old.kept)
            (to_come self.new.total_max self.new.taken self.new.kept)) }

        // A line whose end is kept is answered from what is kept.
        ensures ready { has_end self.old.kept ≡ true → source.new ≡ source.old }
        ensures ready_taken { has_end self.old.kept ≡ true → self.new.taken ≡ self.old.taken }

        // Why there is no line.
        ensures many { self.old.fault ≡ None → IsErrOf result LineFault.ScriptLong
            → self.old.total_max < self.new.taken }
        ensures over { self.old.fault ≡ None → self.old.total_max < self.old.taken
            → has_end self.old.kept ≡ false
            → IsErrOf result LineFault.ScriptLong ⊎ IsErrOf result LineFault.NoMemory }
        ensures ended { result ≡ Ok Line.End → self.new.taken ≤ self.old.total_max }
        ensures counts { S.faults source.old ≤ S.faults source.new }
        ensures cause { self.old.fault ≡ None → IsErrOf result LineFault.ReadFault
            → Rose (S.faults source.old) (S.faults source.new) }

        // What stays.
        ensures again { IfSome self.old.fault (λ fault. result ≡ Err fault) }
        ensures untouched { IfSome self.old.fault (λ _. source.new ≡ source.old) }
        ensures unchanged { IfSome self.old.fault (λ _. self.new ≡ self.old) }
        ensures fault { IfErr result (λ fault. self.new.fault ≡ Some fault) }
        ensures none { IfOk result (λ _. self.new.fault ≡ None) }
        ensures line_max { self.new.line_max ≡ self.old.line_max }
        ensures total_max { self.new.total_max ≡ self.old.total_max }
    {
        if let Some(fault) = self.fault {
            return Err(fault);
        }
        match line_from(
            self.alloc,
            &mut self.window,
            &mut self.taken,
            self.line_max,
            self.total_max,
            source,
            out,
        ) {
            Ok(line) => Ok(line),
            Err(fault) => {
                self.fault = Some(fault);
                Err(fault)
            }
        }
    }
}
