ghost use Rattle.std.specs.Prelude.{◌≡◌, Some};
ghost use Rattle.drl_scope.specs.Sight.{meaning_of};
ghost use Rattle.drl_compile.specs.Programs.{small_place, type_place, entry_place, field_place, fact_meant, variable_side, variable_field_side};

use drl_scope::{DeclaredType, Meaning, Place, Places, Seen};
use fx_base::Text;
use rule_model::Side;

/// A place as a number of 8 bits. It stands still at 255; an accepted file has none beyond 31.
pub(crate) fn small(place: Option<usize>) -> u8
    ensures { result ≡ small_place place }
{
    match place {
        Some(place) => place.min(255) as u8,
        None => 0,
    }
}

/// The place of a type or an entry point as a number of 16 bits. It stands still at 65,535.
pub(crate) fn type_number(place: Option<usize>) -> u16
    ensures { result ≡ type_place place }
{
    match place {
        Some(place) => place.min(65_535) as u16,
        None => 0,
    }
}

/// The number of the entry point that a pattern names. Without a name it is the default one, which is the first.
pub(crate) fn entry_number(entries: &Places, entry: &Option<Text>) -> u16
    ensures { result ≡ entry_place entries.now entry.now }
{
    match entry {
        Some(name) => type_number(entries.find(name)),
        None => 0,
    }
}

/// The number of a field of a type.
pub(crate) fn field_number(ty: &DeclaredType, field: &Text) -> u8
    ensures { result ≡ field_place ty.now field.now }
{
    small(ty.find(field))
}

/// The number of the fact that a variable means.
pub(crate) fn fact_number(meaning: &Meaning) -> u8
    ensures { result ≡ fact_meant (Some meaning.now) }
{
    match meaning.seen() {
        Seen::Fact { fact, .. } => small(Some(fact)),
        Seen::Field { .. } | Seen::Result { .. } => 0,
    }
}

/// The number of the fact that the variable of this name means.
pub(crate) fn fact_of_variable(place: &Place, var: &Text) -> u8
    ensures { result ≡ fact_meant (meaning_of place.now.sight var.now) }
{
    match place.find(var) {
        Some(meaning) => fact_number(meaning),
        None => 0,
    }
}

/// What a comparison with a variable is against, where it is a value.
pub(crate) fn variable_against(meaning: &Meaning) -> Side
    ensures { result ≡ variable_side (Some meaning.now) }
{
    match meaning.seen() {
        Seen::Field { fact, field, .. } => Side::Of {
            fact: small(Some(fact)),
            field: small(Some(field)),
        },
        Seen::Result { result: number } => Side::Result(small(Some(number))),
        Seen::Fact { .. } => Side::Own(0),
    }
}

/// What a comparison with a field of a variable is against, where it is a fact.
pub(crate) fn variable_field_against(meaning: &Meaning, field: &Text) -> Side
    ensures { result ≡ variable_field_side (Some meaning.now) field.now }
{
    match meaning.seen() {
        Seen::Fact { fact, ty } => Side::Of {
            fact: small(Some(fact)),
            field: field_number(ty, field),
        },
        Seen::Field { .. } | Seen::Result { .. } => Side::Own(0),
    }
}
