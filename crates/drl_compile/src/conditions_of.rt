ghost use Rattle.std.specs.Prelude.{◌≡◌, min, option_map, IfOk};
ghost use Rattle.drl_scope.specs.Declarations.{field_names, type_tree_named};
ghost use Rattle.drl_scope.specs.Names.{place_of_name};
ghost use Rattle.drl_scope.specs.Sight.{begin, behind_all};
ghost use Rattle.drl_compile.specs.Programs.{fold_kind, count_meant, window_meant, field_bound, argument_place, pattern_in, pattern_meant, type_or_none, condition_meant, conditions_meant};

use crate::numbers::{entry_number, small, type_number};
use crate::tests_of::{constant_tests, joined_tests, result_tests, time_tests};
use crate::undeclared::fieldless;
use drl_grammar::{CondTree, FoldWord, Part, SourceTree, WindowTree};
use drl_scope::{Declared, DeclaredType, Place, Places, source_of};
use fold_fn::FoldKind;
use fx_base::{EntryId, NoMemory, Seq, Text, TypeId};
use rule_model::{Accumulate, Condition, Pattern, WindowTag};
use std::alloc::Global;

// ---- patterns

fn count(events: i64) -> u64
    ensures { result ≡ count_meant events }
{
    events.max(0) as u64
}

fn window(tree: &Option<WindowTree>) -> WindowTag
    ensures { result ≡ window_meant tree.now }
{
    match tree {
        Some(WindowTree::Time(span)) => WindowTag::Time(*span),
        Some(WindowTree::Length(events)) => WindowTag::Length(count(*events)),
        None => WindowTag::Whole,
    }
}

fn pattern_over(
    alloc: Global,
    ty: &DeclaredType,
    number: u16,
    entry: u16,
    place: &Place,
    source: &SourceTree,
) -> Result<Pattern, NoMemory>
    ensures { IfOk result (λ pattern. pattern ≡ pattern_in ty.now number entry place.now.sight source.now) }
{
    Ok(Pattern {
        ty: TypeId(number),
        entry: EntryId(entry),
        window: window(&source.window),
        alone: constant_tests(alloc, ty, place, source.parts.as_slice())?,
        joined: joined_tests(alloc, ty, place, source.parts.as_slice())?,
        times: time_tests(alloc, place, source.parts.as_slice())?,
    })
}

fn pattern(
    alloc: Global,
    types: &Declared,
    entries: &Places,
    place: &Place,
    source: &SourceTree,
) -> Result<Pattern, NoMemory>
    ensures { IfOk result (λ pattern. pattern ≡ pattern_meant types.now entries.now place.now.sight source.now) }
{
    let number = type_number(types.place(&source.ty));
    let entry = entry_number(entries, &source.entry);
    match types.find(&source.ty) {
        Some(ty) => pattern_over(alloc, ty, number, entry, place, source),
        None => {
            let tree = fieldless(alloc)?;
            let ty = DeclaredType::of(alloc, &tree)?;
            pattern_over(alloc, &ty, number, entry, place, source)
        }
    }
}

// ---- accumulates

fn kind(word: FoldWord) -> FoldKind
    ensures { result ≡ fold_kind word }
{
    match word {
        FoldWord::Count => FoldKind::Count,
        FoldWord::Sum => FoldKind::Sum,
        FoldWord::Min => FoldKind::Least,
        FoldWord::Max => FoldKind::Greatest,
        FoldWord::Average => FoldKind::Average,
    }
}

// The field to which a pattern binds a variable.
fn bound_field<'a>(parts: &'a [Part], var: &Text) -> Option<&'a Text>
    ensures { option_map (λ f. f.now) result ≡ field_bound var.now parts.now }
{
    for part in parts {
        match part {
            Part::Bind { var: bound, field } => {
                if *bound == *var {
                    return Some(field);
                }
            }
            Part::Temporal { .. } | Part::AnyOf(_) => {}
        }
    }
    None
}

// The number of a field of a type, where the type has one of this name.
fn declared_field(ty: &DeclaredType, field: &Text) -> Option<u8>
    ensures { result ≡ option_map (λ k. min k 255) (place_of_name (field_names ty.now) field.now) }
{
    match ty.find(field) {
        Some(place) => Some(small(Some(place))),
        None => None,
    }
}

fn argument_in(ty: &DeclaredType, source: &SourceTree, var: &Text) -> Option<u8>
    ensures { result ≡ argument_place ty.now source.now var.now }
{
    match bound_field(source.parts.as_slice(), var) {
        Some(field) => declared_field(ty, field),
        None => None,
    }
}

// The number of the field whose values a function takes.
fn argument(types: &Declared, source: &SourceTree, var: &Text) -> Option<u8>
    ensures { result ≡ argument_place (type_or_none (type_tree_named types.now source.now.ty)) source.now var.now }
{
    match types.find(&source.ty) {
        Some(ty) => argument_in(ty, source, var),
        None => None,
    }
}

// ---- conditions

// The condition of the program that a tree is.
fn condition(
    alloc: Global,
    types: &Declared,
    entries: &Places,
    place: &Place,
    tree: &CondTree,
) -> Result<Condition, NoMemory>
    ensures { IfOk result (λ condition. condition ≡ condition_meant types.now entries.now place.now tree.now) }
{
    let pattern = pattern(alloc, types, entries, place, source_of(tree))?;
    match tree {
        CondTree::Plain(_) => Ok(Condition::Plain(pattern)),
        CondTree::Negated(_) => Ok(Condition::Negated(pattern)),
        CondTree::Existing(_) => Ok(Condition::Existing(pattern)),
        CondTree::Folded {
            source,
            kind: word,
            arg,
            tests,
            ..
        } => Ok(Condition::Folded(Accumulate {
            pattern,
            kind: kind(*word),
            arg: argument(types, source, arg),
            tests: result_tests(alloc, place, tests.as_slice())?,
        })),
    }
}

/// The conditions, and what is in sight behind all of them.
#[tactic(auto, unfolding(crate::specs::Programs::conditions_meant, drl_scope::specs::Sight::behind_all))]
pub(crate) fn conditions<'a, 'b>(
    alloc: Global,
    types: &'a Declared<'b>,
    entries: &Places,
    trees: &[CondTree],
) -> Result<(Seq<Condition>, Place<'a, 'b>), NoMemory>
    ensures conditions { IfOk result (λ made. made.0 ≡ conditions_meant types.now entries.now begin trees.now) }
    ensures place { IfOk result (λ made. made.1 ≡ behind_all types.now begin trees.now) }
{
    let mut conditions = Vec::with_capacity(alloc, trees.len())?;
    let mut place = Place::begin(alloc);
    for tree in trees {
        conditions.push(condition(alloc, types, entries, &place, tree)?)?;
        place = place.behind(alloc, types, tree)?;
    }
    Ok((Seq::from_vec(conditions), place))
}
