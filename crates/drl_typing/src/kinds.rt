ghost use Rattle.std.specs.Prelude.{◌≡◌, List};
ghost use Rattle.std.specs.List.{list_any};
ghost use Rattle.drl_lex.specs.declared.token.Rel.TheVariants.{Equal};
ghost use Rattle.drl_grammar.specs.declared.condition.Cmp.{Cmp};
ghost use Rattle.drl_grammar.specs.declared.condition.Operand.{Operand};
ghost use Rattle.drl_typing.specs.Kinds.{has_unknown_kind, literal_kind, operand_kind, is_int, is_same_kind, kinds_fit, misfits, cmp_misfits, is_value, part_misfits, source_misfits, is_number_in, is_number_of, wants_numbers, argument_misfits, result_operand_kind, test_misfits, has_wrong_kind};
ghost use Rattle.drl_scope.specs.Declarations.{type_tree_named};
ghost use Rattle.drl_scope.specs.Sight.{meaning_of};
ghost use Rattle.drl_scope.specs.Meanings.{field_kind, variable_kind, variable_field_kind};

use drl_expr::LitTree;
use drl_grammar::{Cmp, CondTree, FoldWord, Operand, Part, SourceTree, TypeTree};
use drl_lex::Rel;
use drl_scope::{Declared, DeclaredType, Meaning, Place, Seen, kind_of_word};
use fx_base::{Kind, Seq, Text};

/// Whether a field's kind word is none of the seven.
pub fn lacks_kind(tree: &TypeTree) -> bool
    ensures { result ≡ has_unknown_kind tree.now }
{
    tree.fields
        .as_slice()
        .iter()
        .any(|field| kind_of_word(&field.1).is_none())
}

/// The kind of a literal.
pub(crate) fn kind_of_literal(literal: &LitTree) -> Kind
    ensures { result ≡ literal_kind literal.now }
{
    match literal {
        LitTree::Int(_) => Kind::Int,
        LitTree::Bool(_) => Kind::Bool,
        LitTree::Text(_) => Kind::Text,
    }
}

/// The kind of a variable that is a value.
pub(crate) fn kind_of_variable(place: &Place, var: &Text) -> Option<Option<Kind>>
    ensures { result ≡ variable_kind (meaning_of place.now.sight var.now) }
{
    match place.find(var) {
        Some(meaning) => meaning.kind(),
        None => None,
    }
}

/// The kind of a field of a variable that is a fact.
pub(crate) fn kind_of_variable_field(
    place: &Place,
    var: &Text,
    field: &Text,
) -> Option<Option<Kind>>
    ensures { result ≡ variable_field_kind (meaning_of place.now.sight var.now) field.now }
{
    match place.find(var) {
        Some(meaning) => meaning.kind_of(field),
        None => None,
    }
}

// The kind of an operand, which a field may lack; nothing where a fact stands for a value, or a value for a fact.
fn kind_of_operand(ty: &DeclaredType, place: &Place, operand: &Operand) -> Option<Option<Kind>>
    ensures { result ≡ operand_kind ty.now place.now.sight operand.now }
{
    match operand {
        Operand::Lit(literal) => Some(Some(kind_of_literal(literal))),
        Operand::Own(field) => Some(ty.kind_of(field)),
        Operand::Var(var) => kind_of_variable(place, var),
        Operand::VarField(var, field) => kind_of_variable_field(place, var, field),
    }
}

/// Whether it is the kind of whole numbers.
pub fn is_whole(kind: Option<Kind>) -> bool
    ensures { result ≡ is_int kind }
{
    match kind {
        Some(Kind::Int) => true,
        _ => false,
    }
}

/// Whether the two are the same kind, or both none.
pub(crate) fn are_same(left: Option<Kind>, right: Option<Kind>) -> bool
    ensures { result ≡ is_same_kind left right }
{
    left == right
}

fn do_fit(rel: Rel, left: Option<Kind>, right: Option<Kind>) -> bool
    ensures { result ≡ kinds_fit rel left right }
{
    match rel {
        Rel::Equal => are_same(left, right),
        Rel::NotEqual => are_same(left, right),
        Rel::Less | Rel::LessOrEqual | Rel::Greater | Rel::GreaterOrEqual => {
            is_whole(left) && is_whole(right)
        }
    }
}

fn does_misfit(rel: Rel, left: Option<Kind>, right: Option<Option<Kind>>) -> bool
    ensures { result ≡ misfits rel left right }
{
    match right {
        Some(kind) => !do_fit(rel, left, kind),
        None => true,
    }
}

fn misfits_some(ty: &DeclaredType, place: &Place, left: Option<Kind>, operands: &[Operand]) -> bool
    ensures { result ≡ list_any (λ (o : Operand). misfits Equal left (operand_kind ty.now place.now.sight o)) operands.now }
{
    operands.iter().any(|operand| does_misfit(
        Rel::Equal,
        left,
        kind_of_operand(ty, place, operand),
    ))
}

fn misfits_in_cmp(ty: &DeclaredType, place: &Place, cmp: &Cmp) -> bool
    ensures { result ≡ cmp_misfits ty.now place.now.sight cmp.now }
{
    match cmp {
        Cmp::Rel {
            field,
            rel,
            operand,
        } => does_misfit(*rel, ty.kind_of(field), kind_of_operand(ty, place, operand)),
        Cmp::OneOf { field, operands } => {
            misfits_some(ty, place, ty.kind_of(field), operands.as_slice())
        }
    }
}

fn misfits_in_group(ty: &DeclaredType, place: &Place, group: &[Cmp]) -> bool
    ensures { result ≡ list_any (cmp_misfits ty.now place.now.sight) group.now }
{
    group.iter().any(|cmp| misfits_in_cmp(ty, place, cmp))
}

fn misfits_in_groups(ty: &DeclaredType, place: &Place, groups: &[Seq<Cmp>]) -> bool
    ensures { result ≡ list_any (λ (group : List Cmp). list_any (cmp_misfits ty.now place.now.sight) group) groups.now }
{
    groups
        .iter()
        .any(|group| misfits_in_group(ty, place, group.as_slice()))
}

// Whether a variable is a value, and no fact.
fn is_value_in(place: &Place, var: &Text) -> bool
    ensures { result ≡ is_value (meaning_of place.now.sight var.now) }
{
    match place.find(var) {
        Some(meaning) => is_value_meant(meaning),
        None => false,
    }
}

fn is_value_meant(meaning: &Meaning) -> bool
    ensures { result ≡ is_value (Some meaning.now) }
{
    match meaning.seen() {
        Seen::Fact { .. } => false,
        Seen::Field { .. } => true,
        Seen::Result { .. } => true,
    }
}

fn misfits_in_part(ty: &DeclaredType, place: &Place, part: &Part) -> bool
    ensures { result ≡ part_misfits ty.now place.now.sight part.now }
{
    match part {
        Part::Bind { .. } => false,
        Part::Temporal { other, .. } => is_value_in(place, other),
        Part::AnyOf(groups) => misfits_in_groups(ty, place, groups.as_slice()),
    }
}

fn misfits_in_parts(ty: &DeclaredType, place: &Place, parts: &[Part]) -> bool
    ensures { result ≡ list_any (part_misfits ty.now place.now.sight) parts.now }
{
    parts.iter().any(|part| misfits_in_part(ty, place, part))
}

fn misfits_in_source(types: &Declared, place: &Place, source: &SourceTree) -> bool
    ensures { result ≡ source_misfits (type_tree_named types.now source.now.ty) place.now.sight source.now }
{
    match types.find(&source.ty) {
        Some(ty) => misfits_in_parts(ty, place, source.parts.as_slice()),
        None => false,
    }
}

// ---- accumulates

fn is_number_bound(ty: &DeclaredType, var: &Text, part: &Part) -> bool
    ensures { result ≡ is_number_in ty.now var.now part.now }
{
    match part {
        Part::Bind { var: bound, field } => *bound == *var && is_whole(ty.kind_of(field)),
        Part::Temporal { .. } | Part::AnyOf(_) => false,
    }
}

fn are_numbers_bound(ty: &DeclaredType, source: &SourceTree, var: &Text) -> bool
    ensures { result ≡ is_number_of ty.now source.now var.now }
{
    source
        .parts
        .as_slice()
        .iter()
        .any(|part| is_number_bound(ty, var, part))
}

fn is_over_numbers(function: FoldWord) -> bool
    ensures { result ≡ wants_numbers function }
{
    match function {
        FoldWord::Count => false,
        FoldWord::Sum | FoldWord::Min | FoldWord::Max | FoldWord::Average => true,
    }
}

fn does_argument_misfit(
    types: &Declared,
    source: &SourceTree,
    function: FoldWord,
    arg: &Text,
) -> bool
    ensures { result ≡ argument_misfits (type_tree_named types.now source.now.ty) source.now function arg.now }
{
    match types.find(&source.ty) {
        Some(ty) => is_over_numbers(function) && !are_numbers_bound(ty, source, arg),
        None => false,
    }
}

// The kind of an operand of a test of a result, which has no field of its own.
fn kind_of_result_operand(place: &Place, operand: &Operand) -> Option<Option<Kind>>
    ensures { result ≡ result_operand_kind place.now.sight operand.now }
{
    match operand {
        Operand::Lit(literal) => Some(Some(kind_of_literal(literal))),
        Operand::Var(var) => kind_of_variable(place, var),
        Operand::VarField(var, field) => kind_of_variable_field(place, var, field),
        Operand::Own(_) => None,
    }
}

fn misfits_in_test(place: &Place, test: &(Rel, Operand)) -> bool
    ensures { result ≡ test_misfits place.now.sight test.now }
{
    does_misfit(
        test.0,
        Some(Kind::Int),
        kind_of_result_operand(place, &test.1),
    )
}

fn misfits_in_tests(place: &Place, tests: &[(Rel, Operand)]) -> bool
    ensures { result ≡ list_any (test_misfits place.now.sight) tests.now }
{
    tests.iter().any(|test| misfits_in_test(place, test))
}

/// Whether a condition compares what does not fit, or folds what is no whole number.
pub(crate) fn misfits_in(types: &Declared, place: &Place, condition: &CondTree) -> bool
    ensures { result ≡ has_wrong_kind types.now place.now condition.now }
{
    match condition {
        CondTree::Plain(source) => misfits_in_source(types, place, source),
        CondTree::Negated(source) => misfits_in_source(types, place, source),
        CondTree::Existing(source) => misfits_in_source(types, place, source),
        CondTree::Folded {
            result: _,
            source,
            kind,
            arg,
            tests,
        } => {
            misfits_in_source(types, place, source)
                || does_argument_misfit(types, source, *kind, arg)
                || misfits_in_tests(place, tests.as_slice())
        }
    }
}
