ghost use Rattle.std.specs.Prelude.{◌≡◌, ◌+◌, ◌-◌, ◌≤◌, ◌^◌, true, IfOk, is_some};
ghost use Rattle.rule_model.specs.Matches.{saliences};
ghost use Rattle.session_model.specs.Standing.{IsSound};

use crate::counting::event_types;
use crate::refreshing::refresh;
use crate::running::Running;
use crate::state::State;
use agenda::Agenda;
use change_resolve::asked_step;
use checkpoint::{Image, LentImage, RunPart};
use engine::{Detail, Engine, Fired, Lines, ResumeFault};
use fx_base::{Millis, NoMemory, Seq};
use rete_net::Rete;
use retention::Retention;
use rule_model::{LifeTable, Program, Rule};
use script_read::Change;
use session_model::{Memory, Setting};
use std::alloc::Global;

/// The saliences of rules, in their order.
pub(crate) fn saliences_of(alloc: Global, rules: &[Rule]) -> Result<Vec<i64>, NoMemory>
    ensures { IfOk result (λ v. v.items ≡ saliences rules.now) }
{
    let mut all = Vec::with_capacity(alloc, rules.len())?;
    for rule in rules {
        all.push(rule.salience)?;
    }
    Ok(all)
}

/// An engine of a program, whose lines tell in brief, or in full as those of `DetailedSession`. It keeps, under their tags, the present
/// facts that some rule can still need, the moments at which events expire, the clock, what the entry points have reached, whether the world
/// has begun, an agenda, the network of its rules, and the events whose lives end.
#[derive(Drop)]
pub struct Session {
    pub(crate) setting: Running,
    pub(crate) state: Box<State>,
    pub(crate) memory: Box<Memory>,
    ghost sound: { ∥ IsSound setting.program memory.value state.value ∥₁ },
}

impl Session {
    ghost use Rattle.life_meaning.specs.Tables.{IsSafeTable};
    ghost use Rattle.rule_world.specs.Programs.{IsRunnable};
    ghost use Rattle.rule_world.specs.Worlds.{World, empty_world};
    ghost use Rattle.engine.specs.Answers.{FiringAnswers};
    ghost use Rattle.engine.specs.Known.{are_known, is_known_firing};
    ghost use Rattle.engine.specs.Counts.{HasEach};
    ghost use Rattle.session_model.specs.Counts.{held_counts};
    ghost use Rattle.answer_lines.specs.declared.lines.Detail.TheVariants.{Brief};
    ghost use Rattle.session_model.specs.Gives.{gives_in, fires_in};
    ghost use Rattle.session.specs.Sessions.{SessionStands};

    /// An engine in the empty world of a program, with a safe table of lives. Its lines tell in brief.
    pub fn new(alloc: Global, program: Program, lives: LifeTable) -> Result<Session, NoMemory>
        requires runnable { IsRunnable program }
        requires table { IsSafeTable program lives }
        ensures stands { IfOk result (λ s. SessionStands s empty_world) }
        ensures program { IfOk result (λ s. s.setting.program ≡ program) }
        ensures table { IfOk result (λ s. s.setting.lives ≡ lives) }
        ensures detail { IfOk result (λ s. s.setting.detail ≡ Brief) }
        ensures next { IfOk result (λ s. s.state.value.next_tag ≡ 1) }
    {
        Session::with_detail(alloc, program, lives, Detail::Brief)
    }

    /// The same, with lines that tell so much.
    pub fn with_detail(
        alloc: Global,
        program: Program,
        lives: LifeTable,
        detail: Detail,
    ) -> Result<Session, NoMemory>
        requires runnable { IsRunnable program }
        requires table { IsSafeTable program lives }
        ensures stands { IfOk result (λ s. SessionStands s empty_world) }
        ensures program { IfOk result (λ s. s.setting.program ≡ program) }
        ensures table { IfOk result (λ s. s.setting.lives ≡ lives) }
        ensures detail { IfOk result (λ s. s.setting.detail ≡ detail) }
        ensures next { IfOk result (λ s. s.state.value.next_tag ≡ 1) }
    {
        let saliences = saliences_of(alloc, program.rules.as_slice())?;
        let (net, first) = Rete::build(alloc, &program)?;
        let mut agenda = Agenda::new(alloc, &saliences)?;
        refresh(alloc, &mut agenda, first)?;
        let kept = State::new(alloc, agenda);
        let state = Box::new(alloc, kept)?;
        let retention = Retention::new(alloc);
        let setting = Running::new(
            alloc,
            Setting {
                program,
                lives,
                detail,
            },
        )?;
        let memory = Box::new(alloc, Memory { net, retention })?;
        Ok(Session {
            setting,
            state,
            memory,
        })
    }

    /// The lines of a change, or its fault, which leaves the world as it is.
    pub fn apply(self, alloc: Global, change: &Change) -> Result<(Session, Lines), NoMemory>
        requires { self.state.value.next_tag ≤ 2 ^ 62 }
        ensures lines { IfOk result (λ r. (w : World) → SessionStands self w → r.1 ≡ (gives_in self.setting.detail self.setting.program w change.now).0) }
        ensures next { IfOk result (λ r. (w : World) → SessionStands self w → SessionStands r.0 (gives_in self.setting.detail self.setting.program w change.now).1) }
        ensures known { IfOk result (λ r. are_known self.setting.program r.1 ≡ true) }
        ensures program { IfOk result (λ r. r.0.setting.program ≡ self.setting.program) }
        ensures table { IfOk result (λ r. r.0.setting.lives ≡ self.setting.lives) }
        ensures detail { IfOk result (λ r. r.0.setting.detail ≡ self.setting.detail) }
        ensures tags { IfOk result (λ r. r.0.state.value.next_tag ≤ self.state.value.next_tag + 1) }
    {
        let Session {
            setting,
            mut state,
            mut memory,
        } = self;
        let mut lines = Vec::new(alloc);
        let inside = setting.setting();
        let kept = &mut *state;
        let asked = asked_step(alloc, &inside.program, &*kept, change)?;
        kept.apply(alloc, inside, &mut *memory, asked, &mut lines)?;
        Ok((
            Session {
                setting,
                state,
                memory,
            },
            Seq::from_vec(lines),
        ))
    }

    /// The lines of one firing and of its actions, whose values are those of the world before it; `No` exactly where nothing is
    /// pending.
    pub fn fire_one(self, alloc: Global) -> Result<(Session, Fired), NoMemory>
        requires { self.state.value.next_tag ≤ 2 ^ 62 }
        ensures answers { IfOk result (λ r. (w : World) → SessionStands self w → FiringAnswers (fires_in self.setting.detail self.setting.program w) r.1 w (SessionStands r.0)) }
        ensures known { IfOk result (λ r. is_known_firing self.setting.program r.1 ≡ true) }
        ensures program { IfOk result (λ r. r.0.setting.program ≡ self.setting.program) }
        ensures table { IfOk result (λ r. r.0.setting.lives ≡ self.setting.lives) }
        ensures detail { IfOk result (λ r. r.0.setting.detail ≡ self.setting.detail) }
        ensures tags { IfOk result (λ r. r.0.state.value.next_tag ≤ self.state.value.next_tag + 16) }
    {
        let Session {
            setting,
            mut state,
            mut memory,
        } = self;
        let inside = setting.setting();
        match state.plan(alloc, inside)? {
            Some(firing) => {
                let mut lines = Vec::new(alloc);
                let kept = &mut *state;
                kept.fire(alloc, inside, &mut *memory, firing, &mut lines)?;
                Ok((
                    Session {
                        setting,
                        state,
                        memory,
                    },
                    Fired::Yes(Seq::from_vec(lines)),
                ))
            }
            None => Ok((
                Session {
                    setting,
                    state,
                    memory,
                },
                Fired::No,
            )),
        }
    }

    /// Whether a match is pending. Takes no memory.
    pub fn due(&self) -> bool
        ensures { (w : World) → SessionStands self.now w → result ≡ is_some (fires_in self.now.setting.detail self.now.setting.program w) }
    {
        self.state.top().is_some()
    }

    /// The clock, in milliseconds. Takes no memory.
    pub fn clock(&self) -> Millis
        ensures { (w : World) → SessionStands self.now w → result ≡ w.clock }
    {
        self.state.clock()
    }

    /// How many tags were given. Takes no memory.
    pub fn tags_given(&self) -> u64
        ensures { result ≡ self.now.state.value.next_tag - 1 }
    {
        self.state.tags_given()
    }

    /// For each event type of the program, in their order, how many of its events are kept. It goes once over the types, and takes
    /// memory for their places and their numbers alone.
    pub fn held(&self, alloc: Global) -> Result<Vec<u64>, NoMemory>
        ensures counts { IfOk result (λ numbers. (w : World) → SessionStands self.now w
            → numbers.items ≡ held_counts self.now.setting.program self.now.setting.lives w) }
        ensures each { IfOk result (λ numbers. HasEach self.now.setting.program numbers.items) }
    {
        let inside = self.setting.setting();
        let types = event_types(alloc, inside.program.types.as_slice())?;
        self.state.counts(alloc, types.as_slice())
    }

    /// The program that the session was made with. Takes no memory.
    pub fn program(&self) -> &Program
        ensures { result.now ≡ self.now.setting.program }
    {
        &self.setting.setting().program
    }
}

impl Engine for Session {
    ghost use Rattle.session_model.specs.Counts.{held_counts};
    ghost use Rattle.session_model.specs.Gives.{gives as session_gives, fires as session_fires};
    ghost use Rattle.session.specs.Sessions.{StandsInBrief};

    ghost stands = { StandsInBrief };

    ghost made_with = { λ s. s.setting.program };

    ghost table = { λ s. s.setting.lives };

    ghost tags = { λ s. s.state.value.next_tag - 1 };

    ghost gives = { session_gives };

    ghost fires = { session_fires };

    ghost counts = { held_counts };

    fn new(alloc: Global, program: Program, lives: LifeTable) -> Result<Session, NoMemory> {
        Session::new(alloc, program, lives)
    }

    fn apply(self, alloc: Global, change: &Change) -> Result<(Session, Lines), NoMemory> {
        Session::apply(self, alloc, change)
    }

    fn fire_one(self, alloc: Global) -> Result<(Session, Fired), NoMemory> {
        Session::fire_one(self, alloc)
    }

    fn due(&self) -> bool {
        Session::due(self)
    }

    fn tags_given(&self) -> u64 {
        Session::tags_given(self)
    }

    fn held(&self, alloc: Global) -> Result<Vec<u64>, NoMemory> {
        Session::held(self, alloc)
    }

    fn program(&self) -> &Program {
        Session::program(self)
    }

    fn save(self, alloc: Global, run: RunPart) -> Result<Image, NoMemory> {
        Session::save(self, alloc, run)
    }

    fn image(&self, alloc: Global, run: RunPart) -> Result<LentImage<'_>, NoMemory> {
        Session::image(self, alloc, run)
    }

    fn resume(
        alloc: Global,
        program: Program,
        lives: LifeTable,
        image: Image,
    ) -> Result<Session, ResumeFault> {
        Session::resume(alloc, program, lives, image)
    }
}
