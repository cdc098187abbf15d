ghost use Rattle.std.specs.Prelude.{◌≡◌, true, fold, IfSome, IsTrue};
ghost use Rattle.std.specs.Hash.FoldHasher as hasher;
ghost use Rattle.fx_base.specs.declared.value.Value.{Value as ValueData};
ghost use Rattle.rule_model.specs.Tests.{compare_holds, compares_hold, related, tests_hold};
ghost use Rattle.rule_model.specs.Tuples.{unbound};
ghost use Rattle.join_tests.specs.Keys.{writes};
ghost use Rattle.rete_net.specs.Selectors.{choices_hold, value_hash, TellsValue};

use fx_base::{Seq, TypeId, Value};
use rule_model::{Compare, RelTag, Side, Test};
use std::hash::{FoldHasher, Hash, Hasher};

/// A field, by its place, and the value that it has in each fact that passes the constant tests.
#[derive(Drop)]
pub(crate) struct Selector<'p> {
    pub(crate) field: u8,
    pub(crate) value: &'p Value,
}

/// The first equality of a field with a literal that each fact has which passes these tests. Takes no memory.
pub(crate) fn selector_of(tests: &[Test]) -> Option<Selector>
    ensures { IfSome result (λ s. TellsValue (λ f. tests_hold unbound f tests.now) s.field s.value.now) }
{
    for test in tests {
        if let Some(selector) = of_choices(test.choices.as_slice()) {
            return Some(selector);
        }
    }
    None
}

// That of the comparisons of a single choice.
fn of_choices(choices: &[Seq<Compare>]) -> Option<Selector>
    ensures { IfSome result (λ s. TellsValue (λ f. choices_hold f choices.now) s.field s.value.now) }
{
    match choices {
        [choice] => of_compares(choice.as_slice()),
        _ => None,
    }
}

// That of comparisons that all hold.
fn of_compares(compares: &[Compare]) -> Option<Selector>
    ensures { IfSome result (λ s. TellsValue (λ f. compares_hold unbound f compares.now) s.field s.value.now) }
{
    for compare in compares {
        if let Some(selector) = of_compare(compare) {
            return Some(selector);
        }
    }
    None
}

// That of one comparison: an equality with a literal.
fn of_compare(compare: &Compare) -> Option<Selector>
    ensures { IfSome result (λ s. TellsValue (λ f. compare_holds unbound f compare.now) s.field s.value.now) }
{
    if !is_equality(compare.rel) {
        return None;
    }
    match compare.against.as_slice() {
        [Side::Lit(value)] => Some(Selector {
            field: compare.field,
            value,
        }),
        _ => None,
    }
}

fn is_equality(rel: RelTag) -> bool
    ensures { IsTrue result → (a b : ValueData) → related rel a b ≡ true → a ≡ b }
{
    match rel {
        RelTag::OneOf => true,
        RelTag::Equal => true,
        RelTag::NotEqual => false,
        RelTag::Less => false,
        RelTag::LessOrEqual => false,
        RelTag::Greater => false,
        RelTag::GreaterOrEqual => false,
    }
}

/// The hash of a value in a field of a type. Takes no memory.
pub(crate) fn number_of(ty: TypeId, field: usize, value: &Value) -> u64
    ensures { result ≡ value_hash ty.0 field value.now }
{
    let mut state = FoldHasher::default();
    ty.0.hash(&mut state);
    (field as u64).hash(&mut state);
    feed(value, &mut state);
    state.finish()
}

fn feed(value: &Value, state: &mut FoldHasher)
    ensures { state.new ≡ fold hasher.write state.old (writes value.now) }
{
    match value {
        Value::Int(number) => number.hash(state),
        Value::Bool(flag) => flag.hash(state),
        Value::Text(text) => text.hash(state),
    }
}
