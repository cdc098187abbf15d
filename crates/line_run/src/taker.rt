ghost use Rattle.std.specs.Prelude.{◌≡◌, ◌↔◌, ◌⊎◌, ◌≤◌, ◌+◌, ◌<◌, ◌^◌, ℕ, List, Option, None, IfOk, OnOk, OnErr, IsErrOf};
ghost use Rattle.fx_io.specs.Answers.{Answers, UsesBytesUp};
ghost use Rattle.fx_io.specs.Outside.{Rose};
ghost use Rattle.rule_model.specs.declared.life.LifeTable.{LifeTable as LifeTableData};
ghost use Rattle.rule_model.specs.declared.program.Program.{Program as ProgramData};
ghost use Rattle.rule_world.specs.Worlds.{World};
ghost use Rattle.line_run.specs.declared.fault.ImageFault.{ImageFault as ImageFaultData};
ghost use Rattle.line_run.specs.declared.turn.Progress.{Progress as ProgressData};
ghost use Rattle.line_run.specs.Run.{RunState, Steps, state_in};
ghost use Rattle.line_run.specs.Saves.{Files};
ghost use Rattle.line_run.specs.Turns.{EndsAt, HasAtMost, Smaller, StaysReady, Turns};

use crate::fault::KeepFault;
use crate::turn::{Progress, Turn};
use fx_base::NoMemory;
use fx_io::{Line, Sink};
use std::alloc::Global;

/// What takes the lines of a script, one after the other, and puts the images of its states into files beside an output of the type `K`. The loop
/// over the lines knows it by this contract alone.
pub trait LineTaker<K: Sink>: Sized + Drop {
    // the worlds that a value stands for
    ghost stands: { Self → World → Type 0 };

    // what each line does
    ghost steps: { Self → Steps };

    // the program whose lines it takes, with a table of the lives of its types
    ghost program: { Self → ProgramData };

    ghost table: { Self → LifeTableData };

    // where a run has come so far, it can take so many lines more
    ghost ready: { Self → ProgressData → ℕ → Type 0 };

    // what it is that the image of a state is put, in its files before and after
    ghost puts: { Self → RunState → Files → Files → Type 0 };

    // the image of a state is refused
    ghost refuses: { Self → RunState → ImageFaultData → Type 0 };

    /// Does the next line, where there is one, and appends what it prints.
    fn take(
        self,
        alloc: Global,
        at: Progress,
        line: Line,
        text: &mut Vec<u8>,
    ) -> Result<(Self, Option<Turn>), NoMemory>
        requires ready { (n : ℕ) × (0 < n) × ready self at n }
        requires counted { at.lines + 1 < 2 ^ 64 }
        requires short { HasAtMost 65536 line }
        ensures turn { IfOk result (λ r. (w : World) (ahead behind : Option (List (List ℕ))) → stands self w → Answers 65536 line ahead behind
            → Turns (stands r.0) (steps self (state_in w at)) text.old.items text.new.items ahead behind r.1) }
        ensures steps { IfOk result (λ r. steps r.0 ≡ steps self) }
        ensures program { IfOk result (λ r. program r.0 ≡ program self) }
        ensures table { IfOk result (λ r. table r.0 ≡ table self) }
        ensures puts { IfOk result (λ r. (s : RunState) (before after : Files) → puts r.0 s before after ↔ puts self s before after) }
        ensures refuses { IfOk result (λ r. (s : RunState) (why : ImageFaultData) → refuses r.0 s why ↔ refuses self s why) }
        ensures ready { IfOk result (λ r. (n m : ℕ) → ready self at n → m < n → StaysReady (ready r.0) at m r.1) }
        ensures ends { IfOk result (λ r. EndsAt line r.1) }
        ensures stays { IfOk result (λ r. r.1 ≡ None → r.0 ≡ self) }
        ensures smaller { IfOk result (λ r. (before after : ℕ) → UsesBytesUp line before after → Smaller r.1 before after) };

    /// Puts the image of the state to which the run has come. It writes nothing.
    fn keep(&self, alloc: Global, at: Progress, out: &mut K) -> Result<(), KeepFault>
        ensures put { OnOk result ((w : World) → stands self.now w → puts self.now (state_in w at) (K.files out.old) (K.files out.new)) }
        ensures failed { OnErr result ((w : World) → stands self.now w
            → (K.files out.new ≡ K.files out.old) ⊎ puts self.now (state_in w at) (K.files out.old) (K.files out.new)) }
        ensures refused { (why : ImageFaultData) → IsErrOf result (KeepFault.Refused why) → (w : World) → stands self.now w
            → refuses self.now (state_in w at) why }
        ensures refused_files { (why : ImageFaultData) → IsErrOf result (KeepFault.Refused why) → K.files out.new ≡ K.files out.old }
        ensures written { K.written out.new ≡ K.written out.old }
        ensures counts { K.faults out.old ≤ K.faults out.new }
        ensures cause { IsErrOf result KeepFault.WriteFault → Rose (K.faults out.old) (K.faults out.new) };
}
