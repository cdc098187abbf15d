//! Live runs behind images of other rules.
ghost use Rattle.std.specs.Prelude.{◌≡◌, ◌≤◌, ◌^◌, length, false, IsTrue, IfOk};
ghost use Rattle.change_rules.specs.Staying.{place_in};
ghost use Rattle.rule_change.specs.Told.{rules_told};
ghost use Rattle.rule_lines.specs.Told.{told_lines};
ghost use Rattle.life_meaning.specs.Tables.{AreLives};
ghost use Rattle.rule_world.specs.Programs.{IsRunnable};
ghost use Rattle.desk.specs.Bars.{IsAsked, IsOutcome};
ghost use Rattle.desk.specs.Changes.{HasGround, HasNoGround, kept_by};
ghost use Rattle.desk.specs.Going.{behind_table};
ghost use Rattle.desk.specs.Meanings.{is_text as is_text_form};

use crate::going::{change_text, copied};
use crate::start::is_text;
use crate::wanted::{Begun, Changing, Setting};
use change_rules::{have_names, have_places, is_as_long, staying_rules, told_rules};
use checkpoint::Image;
use expiry_infer::lives;
use fx_base::{NoMemory, Seq};
use image_fitting::fits_plainly;
use image_fitting::laws::an_image_fits_by_tests_and_rows;
use image_making::{Lives, change};
use replay::Beginning;
use rete_net::LoadFault;
use rule_lines::push_told;
use rule_model::{LifeTable, Program};
use script_run::Form;
use std::alloc::Global;

/// What becomes of a live run behind an image of other rules.
#[derive(Drop)]
pub(crate) enum Outcome {
    /// The rules are taken: the run with which the world goes on, and the lines that tell what becomes of each rule.
    Taken(Begun, Vec<u8>),
    /// They are refused, with this line.
    Refused(Vec<u8>),
    /// The image fits no world of the old rules.
    Unfit,
}

// The lives by which the events of an image's worlds were kept, where these are those of its rules.
fn kept(alloc: Global, own: &LifeTable, lives: &Option<LifeTable>) -> Result<LifeTable, NoMemory>
    ensures { IfOk result (λ table. table ≡ behind_table own.now lives.now) }
{
    match lives {
        Some(lives) => copied(alloc, lives),
        None => copied(alloc, own),
    }
}

// Whether other rules can be asked for over the worlds of an image: its lives and its facts are those of worlds of the old rules.
fn has_ground(
    alloc: Global,
    changing: &Changing,
    own: &LifeTable,
    kept: &LifeTable,
) -> Result<bool, NoMemory>
    requires runnable { IsRunnable changing.now.setting.program }
    requires old { IsRunnable changing.now.old }
    ensures has { IfOk result (λ has. IsTrue has → HasGround changing.now kept.now) }
    ensures none { IfOk result (λ has. has ≡ false → HasNoGround changing.now own.now kept.now) }
{
    an_image_fits_by_tests_and_rows();
    let old = &changing.old;
    if !is_as_long(own, kept) || !have_places(old) || !have_names(old) {
        return Ok(false);
    }
    if !have_names(&changing.setting.program) {
        return Ok(false);
    }
    fits_plainly(alloc, old, kept, &changing.image)
}

// The lines that tell what becomes of each rule.
fn told_text(
    alloc: Global,
    form: &Form,
    old: &Program,
    new: &Program,
    places: &[Option<usize>],
) -> Result<Vec<u8>, NoMemory>
    ensures { IfOk result (λ text. text.items ≡ told_lines (is_text_form form.now) (rules_told old.now new.now (place_in places.now))) }
{
    let mut text = Vec::new(alloc);
    let told = told_rules(alloc, old, new, places)?;
    push_told(&mut text, alloc, told.as_slice(), is_text(form))?;
    Ok(text)
}

// What is asked of other rules: the lives that they need, which of the old rules stay, and the lines that tell it.
#[derive(Drop)]
pub(crate) struct Asked {
    pub(crate) needs: LifeTable,
    pub(crate) places: Vec<Option<usize>>,
    pub(crate) told: Vec<u8>,
}

fn find_asked(alloc: Global, setting: &Setting, old: &Program) -> Result<Asked, NoMemory>
    requires runnable { IsRunnable setting.now.program }
    requires old { IsRunnable old.now }
    ensures { IfOk result (IsAsked setting.now old.now) }
{
    let needs = lives(alloc, &setting.program)?;
    let places = staying_rules(alloc, old, &setting.program)?;
    let told = told_text(alloc, &setting.form, old, &setting.program, &places)?;
    Ok(Asked {
        needs,
        places,
        told,
    })
}

// What becomes of the run, where other rules can be asked for.
fn over(
    alloc: Global,
    changing: Changing,
    own: &LifeTable,
    kept: &LifeTable,
) -> Result<Outcome, NoMemory>
    requires runnable { IsRunnable changing.setting.program }
    requires old { IsRunnable changing.old }
    requires own { AreLives changing.old own.now }
    requires kept { kept.now ≡ kept_by changing own.now }
    requires ground { HasGround changing kept.now }
    ensures { IfOk result (IsOutcome changing) }
{
    let asked = find_asked(alloc, &changing.setting, &changing.old)?;
    let Changing {
        setting,
        rules,
        old,
        lives: _,
        image,
    } = changing;
    let by = Lives {
        kept,
        own: &asked.needs,
    };
    match change(
        alloc,
        &old,
        &setting.program,
        &asked.places,
        &by,
        rules,
        image,
    ) {
        Ok(Ok((made, carried))) => {
            let begun = Begun {
                setting,
                beginning: Beginning::Behind(made),
                lives: Some(carried),
            };
            Ok(Outcome::Taken(begun, asked.told))
        }
        Ok(Err(code)) => {
            let line = change_text(alloc, &setting.program, code)?;
            Ok(Outcome::Refused(line))
        }
        Err(LoadFault::NoRow) => Ok(Outcome::Unfit),
        Err(LoadFault::NoMemory) => Err(NoMemory),
    }
}

/// What becomes of a live run behind an image of other rules. It costs what networks of both rules cost that are loaded.
pub(crate) fn change_over(alloc: Global, changing: Changing) -> Result<Outcome, NoMemory>
    requires runnable { IsRunnable changing.setting.program }
    requires old { IsRunnable changing.old }
    ensures { IfOk result (IsOutcome changing) }
{
    let own = lives(alloc, &changing.old)?;
    let kept = kept(alloc, &own, &changing.lives)?;
    if has_ground(alloc, &changing, &own, &kept)? {
        over(alloc, changing, &own, &kept)
    } else {
        Ok(Outcome::Unfit)
    }
}
