ghost use Rattle.std.specs.Prelude.{◌≡◌, ◌++◌, IfOk, OnOk};
ghost use Rattle.join_tests.specs.Keys.{key_of_side, key_of_sides, key_of_compare, keys_of_compares, keys_of_choices, keys_of_tests};
ghost use Rattle.join_tests.specs.Keying.{and_one, and_more, keying_of};

use fx_base::{NoMemory, Seq};
use rule_model::{Compare, RelTag, Side, Test};
use std::alloc::Global;

/// What a row has of an equality, by its place from 0.
#[derive(Clone, Copy, Debug, PartialEq, Eq)]
pub enum JoinSide {
    /// A field of a fact that the row names.
    Field { fact: u8, field: u8 },
    /// A result of an accumulate.
    Accumulated(u8),
}

/// An equality that a candidate must have with a row: that of its field, by its place from 0, with what the row has.
#[derive(Clone, Copy, Debug, PartialEq, Eq)]
pub struct JoinKey {
    pub field: u8,
    pub side: JoinSide,
}

/// How many equalities a pattern asks for: none, this one, or several, which its tests tell.
#[derive(Clone, Copy, Debug, PartialEq, Eq)]
pub(crate) enum Keying {
    Nothing,
    One(JoinKey),
    Several,
}

impl Keying {
    fn and(self, key: JoinKey) -> Keying
        ensures { result ≡ and_one self key }
    {
        match self {
            Keying::Nothing => Keying::One(key),
            Keying::One(_) => Keying::Several,
            Keying::Several => Keying::Several,
        }
    }
}

/// The equalities that tests ask for. Takes no memory.
pub(crate) fn keying_of_tests(tests: &[Test]) -> Keying
    ensures { result ≡ keying_of (keys_of_tests tests.now) }
{
    let mut keying = Keying::Nothing;
    for test in tests {
        keying = with_choices(keying, test.choices.as_slice());
    }
    keying
}

fn with_choices(before: Keying, choices: &[Seq<Compare>]) -> Keying
    ensures { result ≡ and_more before (keys_of_choices choices.now) }
{
    match choices {
        [choice] => with_compares(before, choice.as_slice()),
        _ => before,
    }
}

fn with_compares(before: Keying, compares: &[Compare]) -> Keying
    ensures { result ≡ and_more before (keys_of_compares compares.now) }
{
    let mut keying = before;
    for compare in compares {
        keying = match key_of_compare(compare) {
            Some(key) => keying.and(key),
            None => keying,
        };
    }
    keying
}

/// The equalities that tests ask for, in the order of the text. It costs a walk over the tests.
pub(crate) fn keys_of_tests(alloc: Global, tests: &[Test]) -> Result<Vec<JoinKey>, NoMemory>
    ensures { IfOk result (λ keys. keys.items ≡ keys_of_tests tests.now) }
{
    let mut keys = Vec::new(alloc);
    for test in tests {
        put_choices(&mut keys, test.choices.as_slice())?;
    }
    Ok(keys)
}

fn put_choices(keys: &mut Vec<JoinKey>, choices: &[Seq<Compare>]) -> Result<(), NoMemory>
    ensures { OnOk result (keys.new.items ≡ keys.old.items ++ keys_of_choices choices.now) }
{
    match choices {
        [choice] => put_compares(keys, choice.as_slice()),
        _ => Ok(()),
    }
}

fn put_compares(keys: &mut Vec<JoinKey>, compares: &[Compare]) -> Result<(), NoMemory>
    ensures { OnOk result (keys.new.items ≡ keys.old.items ++ keys_of_compares compares.now) }
{
    for compare in compares {
        match key_of_compare(compare) {
            Some(key) => keys.push(key)?,
            None => {}
        }
    }
    Ok(())
}

/// The equality that a comparison is, or nothing where it is none. Takes no memory.
pub(crate) fn key_of_compare(compare: &Compare) -> Option<JoinKey>
    ensures { result ≡ key_of_compare compare.now.rel compare.now.field compare.now.against }
{
    match compare.rel {
        RelTag::OneOf | RelTag::Equal => key_of_sides(compare.field, compare.against.as_slice()),
        _ => None,
    }
}

fn key_of_sides(field: u8, sides: &[Side]) -> Option<JoinKey>
    ensures { result ≡ key_of_sides field sides.now }
{
    match sides {
        [side] => key_of_side(field, side),
        _ => None,
    }
}

fn key_of_side(field: u8, side: &Side) -> Option<JoinKey>
    ensures { result ≡ key_of_side field side.now }
{
    let side = match side {
        Side::Of { fact, field } => JoinSide::Field {
            fact: *fact,
            field: *field,
        },
        Side::Result(place) => JoinSide::Accumulated(*place),
        Side::Lit(_) | Side::Own(_) => return None,
    };
    Some(JoinKey { field, side })
}
