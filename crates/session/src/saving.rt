ghost use Rattle.std.specs.Prelude.{◌≡◌, ℕ, List, map as list_map, IfOk, OnOk, IsErrOf};
ghost use Rattle.std.specs.List.Sorted.{IsStrictlySortedBy};
ghost use Rattle.fact_store.specs.Held.{facts_of};
ghost use Rattle.fx_base.specs.declared.fact.Fact.{Fact as FactData};
ghost use Rattle.life_meaning.specs.Tables.{IsSafeTable};
ghost use Rattle.rule_world.specs.Lawful.{IsLawful};
ghost use Rattle.rule_world.specs.Programs.{IsRunnable};
ghost use Rattle.rule_world.specs.Worlds.{World};
ghost use Rattle.rule_model.specs.Matches.{match_cmp};
ghost use Rattle.image_laws.specs.Fitting.{Fits};
ghost use Rattle.image_laws.specs.Images.{IsImageOf, match_fired};
ghost use Rattle.laden_rows.specs.Laden.{AreOwners};
ghost use Rattle.image_fitting.specs.Plain.{FitsPlainly, FitsByRows};
ghost use Rattle.session_model.specs.Restoring.{IsMatched, IsRestored};
ghost use Rattle.session_model.specs.Saving.{IsSessionSaved};
ghost use Rattle.session_model.specs.Standing.{Runs};
ghost use Rattle.answer_lines.specs.declared.lines.Detail.TheVariants.{Brief};
ghost use Rattle.checkpoint.specs.Pieces.{whole};
ghost use Rattle.checkpoint.specs.declared.image.Image.{Image as ImageData};
ghost use Rattle.session.specs.Restores.{AreOfImage};
ghost use Rattle.session.specs.Sessions.{SessionStands};

use crate::course::Course;
use crate::restoring::{Restored, agenda_of};
use crate::running::Running;
use crate::session::Session;
use crate::state::State;
use agenda::Agenda;
use checkpoint::{FiredMatch, Image, LentImage, RunPart};
use engine::{Detail, ResumeFault};
use fact_store::FactStore;
use fx_base::{Fact, NoMemory, Seq};
use image_fitting::fits_plainly;
use image_fitting::laws::an_image_fits_by_tests_and_rows;
use rete_net::{LoadFault, Rete};
use row_delta::Extra;
use rule_model::{LifeTable, Match, Moment, Program};
use session_model::{Memory, Setting};
use std::alloc::Global;

// The network over the facts of an image that fits by plain tests, at its moment, and the agenda of its matches; `Unfit` where the row of an
// extra or a fired match is not there.
fn matched(
    alloc: Global,
    setting: &Setting,
    moment: &Moment,
    extras: &[Extra],
    fired: &[FiredMatch],
    facts: &FactStore,
) -> Result<(Rete, Agenda), ResumeFault>
    requires runs { Runs setting.now }
    ensures matched { (image : ImageData) → AreOfImage setting.now image moment.now extras.now fired.now facts.now → IfOk result (λ r. IsMatched setting.now.program image r.0 r.1) }
    ensures unfit { (image : ImageData) → AreOfImage setting.now image moment.now extras.now fired.now facts.now → IsErrOf result ResumeFault.Unfit
        → (owners : ℕ → ℕ → ℕ) → AreOwners setting.now.program owners → FitsByRows setting.now.program setting.now.lives image owners → ⊥ }
{
    let program = &setting.program;
    let kept = facts.facts(alloc)?;
    match Rete::load(alloc, program, &kept, extras, moment, facts) {
        Ok(loaded) => {
            let (net, changes) = loaded;
            let agenda = agenda_of(alloc, program.rules.as_slice(), changes, fired)?;
            Ok((net, agenda))
        }
        Err(LoadFault::NoRow) => Err(ResumeFault::Unfit),
        Err(LoadFault::NoMemory) => Err(ResumeFault::NoMemory),
    }
}

// The state and the memory of a session, of an image that fits by plain tests; `Unfit` where it does not fit by its rows.
fn restored(alloc: Global, setting: &Setting, image: Image) -> Result<(State, Memory), ResumeFault>
    requires runs { Runs setting.now }
    requires plain { FitsPlainly setting.now.program setting.now.lives image }
    ensures restored { (owners : ℕ → ℕ → ℕ) → AreOwners setting.now.program owners → IfOk result (λ r. IsRestored setting.now image owners r.1 r.0) }
    ensures unfit { IsErrOf result ResumeFault.Unfit → (owners : ℕ → ℕ → ℕ) → AreOwners setting.now.program owners → FitsByRows setting.now.program setting.now.lives image owners → ⊥ }
{
    let Image {
        clock,
        begun,
        last_starts,
        promises,
        next_id,
        next_tag,
        facts,
        fired,
        extras,
        ..
    } = image;
    let kept = Restored::of(alloc, setting, facts.into_vec())?;
    let course = Course::at(alloc, last_starts.as_slice(), promises.as_slice(), begun)?;
    let moment = course.moment(clock);
    let (net, agenda) = matched(
        alloc,
        setting,
        &moment,
        extras.as_slice(),
        fired.as_slice(),
        &kept.facts,
    )?;
    let Restored {
        facts,
        expiries,
        mut retention,
    } = kept;
    let old = retention.past(alloc, clock, &[], &agenda)?;
    if !old.is_empty() {
        return Err(ResumeFault::Unfit);
    }
    let state = State {
        facts,
        expiries,
        clock,
        course,
        agenda,
        next_id,
        next_tag,
    };
    Ok((state, Memory { net, retention }))
}

// This state and this memory in boxes.
fn boxed(alloc: Global, state: State, memory: Memory) -> Result<(Box<State>, Box<Memory>), NoMemory>
    ensures state { IfOk result (λ r. r.0.value ≡ state) }
    ensures memory { IfOk result (λ r. r.1.value ≡ memory) }
{
    Ok((Box::new(alloc, state)?, Box::new(alloc, memory)?))
}

// The fired matches of an agenda, by rule and row.
fn fired_of(alloc: Global, agenda: &Agenda) -> Result<Vec<FiredMatch>, NoMemory>
    ensures matches { IfOk result (λ fired. list_map match_fired fired.items ≡ agenda.now.fired) }
    ensures order { IfOk result (λ fired. IsStrictlySortedBy match_cmp (list_map match_fired fired.items)) }
{
    let matches = agenda.fired(alloc)?;
    let mut fired = Vec::with_capacity(alloc, matches.len())?;
    for matched in matches {
        let Match { rule, row } = matched;
        fired.push(FiredMatch { rule, row })?;
    }
    Ok(fired)
}

impl State {
    // The image of what is kept, with this part of the run, and with what so many entry points have reached, but without the facts.
    fn saved_apart(
        &self,
        alloc: Global,
        run: RunPart,
        entries: usize,
        net: &Rete,
    ) -> Result<Image, NoMemory>
        ensures run { IfOk result (λ image. image.run ≡ run) }
        ensures saved { IfOk result (λ image. (facts : List FactData) → facts ≡ facts_of self.now.facts → IsSessionSaved self.now entries net.now (record image { facts = facts })) }
    {
        let last_starts = self.course.first_last_starts(alloc, entries)?;
        let promises = self.course.first_promises(alloc, entries)?;
        let fired = fired_of(alloc, &self.agenda)?;
        let extras = net.extras(alloc, &self.facts)?;
        Ok(Image {
            run,
            clock: self.clock,
            begun: self.course.begun(),
            last_starts: Seq::from_vec(last_starts),
            promises: Seq::from_vec(promises),
            next_id: self.next_id,
            next_tag: self.next_tag,
            facts: Seq::from_vec(Vec::new(alloc)),
            fired: Seq::from_vec(fired),
            extras: Seq::from_vec(extras),
        })
    }

    // The image of what is kept, with this part of the run, and with what so many entry points have reached. The facts go into it.
    fn saved(
        self,
        alloc: Global,
        run: RunPart,
        entries: usize,
        net: &Rete,
    ) -> Result<Image, NoMemory>
        ensures run { IfOk result (λ image. image.run ≡ run) }
        ensures saved { IfOk result (IsSessionSaved self entries net.now) }
    {
        let mut image = self.saved_apart(alloc, run, entries, net)?;
        let State { facts, .. } = self;
        image.facts = Seq::from_vec(facts.into_facts(alloc)?);
        Ok(image)
    }

    // The same image, with the facts lent.
    fn lent(
        &self,
        alloc: Global,
        run: RunPart,
        entries: usize,
        net: &Rete,
    ) -> Result<LentImage<'_>, NoMemory>
        ensures run { IfOk result (λ image. image.apart.run ≡ run) }
        ensures saved { IfOk result (λ image. IsSessionSaved self.now entries net.now (whole image)) }
    {
        let apart = self.saved_apart(alloc, run, entries, net)?;
        let facts = self.facts.facts(alloc)?;
        Ok(LentImage { apart, facts })
    }
}

impl Session {
    /// The image of each world that the session stands for, with this part of the run. The kept facts go into it; it copies the fired matches,
    /// and what conditions count beyond the facts, which costs the tallies of their rows.
    pub fn save(self, alloc: Global, run: RunPart) -> Result<Image, NoMemory>
        ensures run { IfOk result (λ image. image.run ≡ run) }
        ensures lawful { (w : World) → SessionStands self w → IsLawful self.setting.program w }
        ensures image { IfOk result (λ image. (w : World) → SessionStands self w → IsImageOf self.setting.program self.setting.lives w image) }
    {
        let entries = self.setting.setting().program.entries.as_slice().len();
        let Session { state, memory, .. } = self;
        Box::into_inner(state).saved(alloc, run, entries, &memory.net)
    }

    /// The same image, of the session as it stays: it lends the kept facts.
    pub fn image(&self, alloc: Global, run: RunPart) -> Result<LentImage<'_>, NoMemory>
        ensures run { IfOk result (λ image. image.apart.run ≡ run) }
        ensures lawful { (w : World) → SessionStands self.now w → IsLawful self.now.setting.program w }
        ensures image { IfOk result (λ image. (w : World) → SessionStands self.now w → IsImageOf self.now.setting.program self.now.setting.lives w (whole image)) }
    {
        let entries = self.setting.setting().program.entries.as_slice().len();
        self.state.lent(alloc, run, entries, &self.memory.net)
    }

    /// A session of a program, with a safe table of lives, in each lawful world of which the image is that. Its lines tell in brief. `Unfit`:
    /// exactly where the image does not fit. It costs what the image holds, times the logarithm, and no step of a fact; the facts of the image
    /// go into the session.
    pub fn resume(
        alloc: Global,
        program: Program,
        lives: LifeTable,
        image: Image,
    ) -> Result<Session, ResumeFault>
        requires runnable { IsRunnable program }
        requires table { IsSafeTable program lives }
        ensures stands { IfOk result (λ s. (w : World) → IsLawful program w → IsImageOf program lives w image → SessionStands s w) }
        ensures program { IfOk result (λ s. s.setting.program ≡ program) }
        ensures table { IfOk result (λ s. s.setting.lives ≡ lives) }
        ensures detail { IfOk result (λ s. s.setting.detail ≡ Brief) }
        ensures next { IfOk result (λ s. s.state.value.next_tag ≡ image.next_tag) }
        ensures fits { OnOk result (Fits program lives image) }
        ensures unfit { IsErrOf result ResumeFault.Unfit → Fits program lives image → ⊥ }
    {
        Session::resume_with_detail(alloc, program, lives, Detail::Brief, image)
    }

    /// The same, with lines that tell so much.
    pub fn resume_with_detail(
        alloc: Global,
        program: Program,
        lives: LifeTable,
        detail: Detail,
        image: Image,
    ) -> Result<Session, ResumeFault>
        requires runnable { IsRunnable program }
        requires table { IsSafeTable program lives }
        ensures stands { IfOk result (λ s. (w : World) → IsLawful program w → IsImageOf program lives w image → SessionStands s w) }
        ensures program { IfOk result (λ s. s.setting.program ≡ program) }
        ensures table { IfOk result (λ s. s.setting.lives ≡ lives) }
        ensures detail { IfOk result (λ s. s.setting.detail ≡ detail) }
        ensures next { IfOk result (λ s. s.state.value.next_tag ≡ image.next_tag) }
        ensures fits { OnOk result (Fits program lives image) }
        ensures unfit { IsErrOf result ResumeFault.Unfit → Fits program lives image → ⊥ }
    {
        an_image_fits_by_tests_and_rows();
        let plain = fits_plainly(alloc, &program, &lives, &image)?;
        if !plain {
            return Err(ResumeFault::Unfit);
        }
        let setting = Running::new(
            alloc,
            Setting {
                program,
                lives,
                detail,
            },
        )?;
        let (state, memory) = restored(alloc, setting.setting(), image)?;
        let (state, memory) = boxed(alloc, state, memory)?;
        Ok(Session {
            setting,
            state,
            memory,
        })
    }
}
