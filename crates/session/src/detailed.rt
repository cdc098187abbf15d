use crate::session::Session;
use checkpoint::{Image, LentImage, RunPart};
use engine::{Detail, Engine, Fired, Lines, ResumeFault};
use fx_base::NoMemory;
use rule_model::{LifeTable, Program};
use script_read::Change;
use std::alloc::Global;

/// A session whose lines tell in full: facts with their fields.
#[derive(Drop)]
pub struct DetailedSession {
    pub(crate) inside: Session,
}

impl Engine for DetailedSession {
    ghost use Rattle.std.specs.Prelude.{◌-◌};
    ghost use Rattle.answer_lines.specs.declared.lines.Detail.TheVariants.{Full};
    ghost use Rattle.session_model.specs.Counts.{held_counts};
    ghost use Rattle.session_model.specs.Gives.{gives_in, fires_in};
    ghost use Rattle.session.specs.Sessions.{StandsInFull};

    ghost stands = { StandsInFull };

    ghost made_with = { λ s. s.inside.setting.program };

    ghost table = { λ s. s.inside.setting.lives };

    ghost tags = { λ s. s.inside.state.value.next_tag - 1 };

    ghost gives = { gives_in Full };

    ghost fires = { fires_in Full };

    ghost counts = { held_counts };

    fn new(alloc: Global, program: Program, lives: LifeTable) -> Result<DetailedSession, NoMemory> {
        let inside = Session::with_detail(alloc, program, lives, Detail::Full)?;
        Ok(DetailedSession { inside })
    }

    fn apply(self, alloc: Global, change: &Change) -> Result<(DetailedSession, Lines), NoMemory> {
        let DetailedSession { inside } = self;
        let (inside, lines) = Session::apply(inside, alloc, change)?;
        Ok((DetailedSession { inside }, lines))
    }

    fn fire_one(self, alloc: Global) -> Result<(DetailedSession, Fired), NoMemory> {
        let DetailedSession { inside } = self;
        let (inside, fired) = Session::fire_one(inside, alloc)?;
        Ok((DetailedSession { inside }, fired))
    }

    fn due(&self) -> bool {
        Session::due(&self.inside)
    }

    fn tags_given(&self) -> u64 {
        Session::tags_given(&self.inside)
    }

    fn held(&self, alloc: Global) -> Result<Vec<u64>, NoMemory> {
        Session::held(&self.inside, alloc)
    }

    fn program(&self) -> &Program {
        Session::program(&self.inside)
    }

    fn save(self, alloc: Global, run: RunPart) -> Result<Image, NoMemory> {
        let DetailedSession { inside } = self;
        Session::save(inside, alloc, run)
    }

    fn image(&self, alloc: Global, run: RunPart) -> Result<LentImage<'_>, NoMemory> {
        Session::image(&self.inside, alloc, run)
    }

    fn resume(
        alloc: Global,
        program: Program,
        lives: LifeTable,
        image: Image,
    ) -> Result<DetailedSession, ResumeFault> {
        let inside = Session::resume_with_detail(alloc, program, lives, Detail::Full, image)?;
        Ok(DetailedSession { inside })
    }
}
