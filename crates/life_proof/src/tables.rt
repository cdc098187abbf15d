//! Whether a table of lives may have a certificate at all.
ghost use Rattle.std.specs.Prelude.{◌≡◌, option_map};
ghost use Rattle.std.specs.List.{list_all};
ghost use Rattle.life_proof.specs.Tables.{are_lives_of as lives_of, are_spanned as all_spanned, is_expiry as is_expiry_of, is_lawful_table as is_lawful, is_life_of as is_life_by, is_spanned as is_spanned_by, is_unexpired as without_expiry, spans as spans_window, spans_by as window_spanned};

use fx_base::Millis;
use rule_model::{Condition, Life, LifeTable, Program, Rule, TypeInfo, WindowTag};

fn is_expiry(expires: Option<Millis>, expiry: Millis) -> bool
    ensures { result ≡ is_expiry_of expires expiry }
{
    match expires {
        Some(other) => other == expiry,
        None => false,
    }
}

fn is_unexpired(expires: Option<Millis>) -> bool
    ensures { result ≡ without_expiry expires }
{
    match expires {
        Some(_) => false,
        None => true,
    }
}

// Whether the life is one of those that a type of this declaration can have.
fn is_life_of(ty: &TypeInfo, life: Life) -> bool
    ensures { result ≡ is_life_by ty.now life }
{
    match life {
        Life::Plain => !ty.event,
        Life::Explicit(expiry) => ty.event && is_expiry(ty.expires, expiry),
        Life::Finite(most) => ty.event && is_unexpired(ty.expires) && 0 <= most,
        Life::Infinite => ty.event && is_unexpired(ty.expires),
    }
}

fn are_lives_of(types: &[TypeInfo], lives: &[Life]) -> bool
    ensures { result ≡ lives_of types.now lives.now }
{
    if types.len() != lives.len() {
        return false;
    }
    for (place, ty) in types.iter().enumerate() {
        if !is_life_of(ty, lives[place]) {
            return false;
        }
    }
    true
}

// Whether a life of so many milliseconds is as long as the window.
fn spans(window: WindowTag, life: Millis) -> bool
    ensures { result ≡ spans_window window life }
{
    match window {
        WindowTag::Whole => true,
        WindowTag::Time(span) => span <= life,
        WindowTag::Length(_) => false,
    }
}

// Whether a life that is finite is.
fn spans_by(window: WindowTag, life: Option<&Life>) -> bool
    ensures { result ≡ window_spanned window (option_map (λ l. l.now) life.entry) }
{
    match life {
        Some(Life::Finite(life)) => spans(window, *life),
        Some(Life::Plain) => true,
        Some(Life::Explicit(_)) => true,
        Some(Life::Infinite) => true,
        None => true,
    }
}

fn is_spanned(lives: &[Life], condition: &Condition) -> bool
    ensures { result ≡ is_spanned_by lives.now condition.now }
{
    let pattern = condition.pattern();
    spans_by(pattern.window, lives.get(pattern.ty.0 as usize))
}

fn are_spanned(lives: &[Life], rule: &Rule) -> bool
    ensures { result ≡ all_spanned lives.now rule.now }
{
    rule.conditions
        .as_slice()
        .iter()
        .all(|condition| is_spanned(lives, condition))
}

fn are_all_spanned(lives: &[Life], rules: &[Rule]) -> bool
    ensures { result ≡ list_all (all_spanned lives.now) rules.now }
{
    rules.iter().all(|rule| are_spanned(lives, rule))
}

/// Whether each type has a life that its declaration allows, and no finite one is below 0 or shorter than a window on the type.
pub(crate) fn is_lawful_table(program: &Program, lives: &LifeTable) -> bool
    ensures { result ≡ is_lawful program.now lives.now }
{
    let lives = lives.lives.as_slice();
    are_lives_of(program.types.as_slice(), lives)
        && are_all_spanned(lives, program.rules.as_slice())
}
