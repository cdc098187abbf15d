ghost use Rattle.std.specs.Prelude.{◌≡◌, ◌+◌, ◌≤◌, ◌<◌, ◌^◌, ℕ, true, List, Option, IfOk, OnOk, IsErrOf, is_some};
ghost use Rattle.rule_model.specs.declared.life.LifeTable.{LifeTable as LifeTableData};
ghost use Rattle.rule_model.specs.declared.program.Program.{Program as ProgramData};
ghost use Rattle.life_meaning.specs.Tables.{IsSafeTable};
ghost use Rattle.rule_world.specs.Lawful.{IsLawful};
ghost use Rattle.rule_world.specs.Programs.{IsRunnable};
ghost use Rattle.rule_world.specs.Worlds.{World, empty_world};
ghost use Rattle.script_read.specs.declared.asked.Change.{Change as ChangeData};
ghost use Rattle.checkpoint.specs.Pieces.{whole};
ghost use Rattle.image_laws.specs.Fitting.{Fits};
ghost use Rattle.image_laws.specs.Images.{IsImageOf};
ghost use Rattle.answer_lines.specs.declared.lines.OutLine.{OutLine as OutLineData};
ghost use Rattle.engine.specs.Known.{are_known, is_known_firing};
ghost use Rattle.engine.specs.Answers.{FiringAnswers};
ghost use Rattle.engine.specs.Counts.{HasEach};

use crate::resuming::ResumeFault;
use answer_lines::{Fired, Lines};
use checkpoint::{Image, LentImage, RunPart};
use fx_base::NoMemory;
use rule_model::{LifeTable, Program};
use script_read::Change;
use std::alloc::Global;

/// An engine: it keeps a world of its program in its own way, and answers the lines of each change and firing.
/// What runs a script knows an engine by this contract alone.
pub trait Engine: Sized + Drop {
    // the worlds that a value stands for
    ghost stands: { Self → World → Type 0 };

    ghost made_with: { Self → ProgramData };

    // the table of lives that it was made with
    ghost table: { Self → LifeTableData };

    // how many tags it has given at most
    ghost tags: { Self → ℕ };

    // the lines of a change in a world, and the next world
    ghost gives: { ProgramData → World → ChangeData → List OutLineData × World };

    // the lines of one firing, and the next world; nothing where nothing is pending
    ghost fires: { ProgramData → World → Option (List OutLineData × World) };

    // how many events of each event type are kept in a world, with a safe table of lives
    ghost counts: { ProgramData → LifeTableData → World → List ℕ };

    /// An engine in the empty world of a program, with a table of lives that is safe to forget by: that of the lives of its types
    /// (`expiry_infer::lives`), the one without finite lives (`LifeTable::without`), or any between them.
    fn new(alloc: Global, program: Program, lives: LifeTable) -> Result<Self, NoMemory>
        requires runnable { IsRunnable program }
        requires table { IsSafeTable program lives }
        ensures stands { IfOk result (λ e. stands e empty_world) }
        ensures program { IfOk result (λ e. made_with e ≡ program) }
        ensures table { IfOk result (λ e. table e ≡ lives) }
        ensures tags { IfOk result (λ e. tags e ≡ 0) };

    /// The lines of a change, or its fault, which leaves the world as it is.
    fn apply(self, alloc: Global, change: &Change) -> Result<(Self, Lines), NoMemory>
        requires { tags self < 2 ^ 62 }
        ensures lines { IfOk result (λ r. (w : World) → stands self w → r.1 ≡ (gives (made_with self) w change.now).0) }
        ensures next { IfOk result (λ r. (w : World) → stands self w → stands r.0 (gives (made_with self) w change.now).1) }
        ensures known { IfOk result (λ r. are_known (made_with self) r.1 ≡ true) }
        ensures program { IfOk result (λ r. made_with r.0 ≡ made_with self) }
        ensures table { IfOk result (λ r. table r.0 ≡ table self) }
        ensures tags { IfOk result (λ r. tags r.0 ≤ tags self + 1) };

    /// The lines of one firing; `No` exactly where nothing is pending.
    fn fire_one(self, alloc: Global) -> Result<(Self, Fired), NoMemory>
        requires { tags self < 2 ^ 62 }
        ensures answers { IfOk result (λ r. (w : World) → stands self w → FiringAnswers (fires (made_with self) w) r.1 w (stands r.0)) }
        ensures known { IfOk result (λ r. is_known_firing (made_with self) r.1 ≡ true) }
        ensures program { IfOk result (λ r. made_with r.0 ≡ made_with self) }
        ensures table { IfOk result (λ r. table r.0 ≡ table self) }
        ensures tags { IfOk result (λ r. tags r.0 ≤ tags self + 16) };

    /// Whether a match is pending. Takes no memory.
    fn due(&self) -> bool
        ensures { (w : World) → stands self.now w → result ≡ is_some (fires (made_with self.now) w) };

    /// How many tags the engine has given at most. Takes no memory.
    fn tags_given(&self) -> u64
        ensures { result ≡ tags self.now };

    /// How many events of each event type are kept: a number for each, in the order of the program's types. The engine stays as it is.
    /// It goes at most once over what is kept and once over the types, and takes memory for numbers of the event types alone.
    fn held(&self, alloc: Global) -> Result<Vec<u64>, NoMemory>
        ensures counts { IfOk result (λ numbers. (w : World) → stands self.now w
            → numbers.items ≡ counts (made_with self.now) (table self.now) w) }
        ensures each { IfOk result (λ numbers. HasEach (made_with self.now) numbers.items) };

    /// The program that the engine was made with. Takes no memory.
    fn program(&self) -> &Program
        ensures { result.now ≡ made_with self.now };

    /// The image of each world that the engine stands for, with this part of the run. It holds what the engine keeps, which goes into it;
    /// time and memory grow with that.
    fn save(self, alloc: Global, run: RunPart) -> Result<Image, NoMemory>
        ensures run { IfOk result (λ image. image.run ≡ run) }
        ensures lawful { (w : World) → stands self w → IsLawful (made_with self) w }
        ensures image { IfOk result (λ image. (w : World) → stands self w → IsImageOf (made_with self) (table self) w image) };

    /// The same image, of the engine as it stays: it lends the kept facts. Time grows with what the engine keeps, and so does memory, but for
    /// the facts, of which it takes a reference each.
    fn image(&self, alloc: Global, run: RunPart) -> Result<LentImage<'_>, NoMemory>
        ensures run { IfOk result (λ image. image.apart.run ≡ run) }
        ensures lawful { (w : World) → stands self.now w → IsLawful (made_with self.now) w }
        ensures image { IfOk result (λ image. (w : World) → stands self.now w → IsImageOf (made_with self.now) (table self.now) w (whole image)) };

    /// An engine of a program, with a safe table of lives, in each lawful world of which the image is that; it has given the tags below the
    /// image's next one. `Unfit`: exactly where the image does not fit. Program, table and image are given up then.
    fn resume(
        alloc: Global,
        program: Program,
        lives: LifeTable,
        image: Image,
    ) -> Result<Self, ResumeFault>
        requires runnable { IsRunnable program }
        requires table { IsSafeTable program lives }
        ensures stands { IfOk result (λ e. (w : World) → IsLawful program w → IsImageOf program lives w image → stands e w) }
        ensures program { IfOk result (λ e. made_with e ≡ program) }
        ensures table { IfOk result (λ e. table e ≡ lives) }
        ensures tags { IfOk result (λ e. tags e + 1 ≡ image.next_tag) }
        ensures fits { OnOk result (Fits program lives image) }
        ensures unfit { IsErrOf result ResumeFault.Unfit → Fits program lives image → ⊥ };
}
