ghost use Rattle.std.specs.Prelude.{◌≡◌, List};
ghost use Rattle.std.specs.List.{list_any};
ghost use Rattle.drl_grammar.specs.declared.condition.Cmp.{Cmp};
ghost use Rattle.drl_scope.specs.Sight.{meaning_of};
ghost use Rattle.drl_scope.specs.Declarations.{type_tree_named};
ghost use Rattle.drl_scope.specs.Meanings.{lacks, lacks_for};
ghost use Rattle.drl_typing.specs.Uses.{is_type_unknown, has_unknown_type, operand_lacks, cmp_lacks, part_lacks, source_lacks, test_lacks, has_unknown_field, is_unseen, operand_unseen, part_unseen, source_unseen, test_unseen, has_unknown_variable};

use drl_grammar::{Cmp, CondTree, Operand, Part, SourceTree};
use drl_lex::Rel;
use drl_scope::{Declared, DeclaredType, OperandTest, Place, binds, some_operand};
use fx_base::{Seq, Text};

// ---- types

fn is_unknown_type(types: &Declared, condition: &CondTree) -> bool
    ensures { result ≡ is_type_unknown types.now condition.now }
{
    match condition {
        CondTree::Plain(source) => types.find(&source.ty).is_none(),
        CondTree::Negated(source) => types.find(&source.ty).is_none(),
        CondTree::Existing(source) => types.find(&source.ty).is_none(),
        CondTree::Folded { source, .. } => types.find(&source.ty).is_none(),
    }
}

/// Whether one of the conditions names a type that is not declared.
pub fn lack_type(types: &Declared, conditions: &[CondTree]) -> bool
    ensures { result ≡ has_unknown_type types.now conditions.now }
{
    conditions
        .iter()
        .any(|condition| is_unknown_type(types, condition))
}

// ---- fields

fn is_lacking(ty: &DeclaredType, field: &Text) -> bool
    ensures { result ≡ lacks ty.now field.now }
{
    !ty.has(field)
}

/// Whether a variable is a fact whose type has no field of this name.
pub(crate) fn is_lacking_in(place: &Place, var: &Text, field: &Text) -> bool
    ensures { result ≡ lacks_for (meaning_of place.now.sight var.now) field.now }
{
    match place.find(var) {
        Some(meaning) => meaning.lacks(field),
        None => false,
    }
}

fn lacks_operand(ty: &DeclaredType, place: &Place, operand: &Operand) -> bool
    ensures { result ≡ operand_lacks ty.now place.now.sight operand.now }
{
    match operand {
        Operand::Own(field) => is_lacking(ty, field),
        Operand::VarField(var, field) => is_lacking_in(place, var, field),
        Operand::Lit(_) => false,
        Operand::Var(_) => false,
    }
}

fn lacks_some_operand(ty: &DeclaredType, place: &Place, operands: &[Operand]) -> bool
    ensures { result ≡ list_any (operand_lacks ty.now place.now.sight) operands.now }
{
    operands
        .iter()
        .any(|operand| lacks_operand(ty, place, operand))
}

fn lacks_cmp(ty: &DeclaredType, place: &Place, cmp: &Cmp) -> bool
    ensures { result ≡ cmp_lacks ty.now place.now.sight cmp.now }
{
    match cmp {
        Cmp::Rel { field, operand, .. } => {
            is_lacking(ty, field) || lacks_operand(ty, place, operand)
        }
        Cmp::OneOf { field, operands } => {
            is_lacking(ty, field) || lacks_some_operand(ty, place, operands.as_slice())
        }
    }
}

fn lacks_in_group(ty: &DeclaredType, place: &Place, group: &[Cmp]) -> bool
    ensures { result ≡ list_any (cmp_lacks ty.now place.now.sight) group.now }
{
    group.iter().any(|cmp| lacks_cmp(ty, place, cmp))
}

fn lacks_in_groups(ty: &DeclaredType, place: &Place, groups: &[Seq<Cmp>]) -> bool
    ensures { result ≡ list_any (λ (group : List Cmp). list_any (cmp_lacks ty.now place.now.sight) group) groups.now }
{
    groups
        .iter()
        .any(|group| lacks_in_group(ty, place, group.as_slice()))
}

fn lacks_part(ty: &DeclaredType, place: &Place, part: &Part) -> bool
    ensures { result ≡ part_lacks ty.now place.now.sight part.now }
{
    match part {
        Part::Bind { field, .. } => is_lacking(ty, field),
        Part::Temporal { .. } => false,
        Part::AnyOf(groups) => lacks_in_groups(ty, place, groups.as_slice()),
    }
}

fn lacks_in_parts(ty: &DeclaredType, place: &Place, parts: &[Part]) -> bool
    ensures { result ≡ list_any (part_lacks ty.now place.now.sight) parts.now }
{
    parts.iter().any(|part| lacks_part(ty, place, part))
}

fn lacks_in_source(types: &Declared, place: &Place, source: &SourceTree) -> bool
    ensures { result ≡ source_lacks (type_tree_named types.now source.now.ty) place.now.sight source.now }
{
    match types.find(&source.ty) {
        Some(ty) => lacks_in_parts(ty, place, source.parts.as_slice()),
        None => false,
    }
}

// A test of a result that names a field which is not there. A result has none of its own.
fn lacks_in_test(place: &Place, test: &(Rel, Operand)) -> bool
    ensures { result ≡ test_lacks place.now.sight test.now }
{
    match &test.1 {
        Operand::Own(_) => true,
        Operand::VarField(var, field) => is_lacking_in(place, var, field),
        Operand::Lit(_) => false,
        Operand::Var(_) => false,
    }
}

fn lacks_in_tests(place: &Place, tests: &[(Rel, Operand)]) -> bool
    ensures { result ≡ list_any (test_lacks place.now.sight) tests.now }
{
    tests.iter().any(|test| lacks_in_test(place, test))
}

/// Whether a condition names a field that its type, or the type of a fact in sight, does not have.
pub(crate) fn lacks_field(types: &Declared, place: &Place, condition: &CondTree) -> bool
    ensures { result ≡ has_unknown_field types.now place.now condition.now }
{
    match condition {
        CondTree::Plain(source) => lacks_in_source(types, place, source),
        CondTree::Negated(source) => lacks_in_source(types, place, source),
        CondTree::Existing(source) => lacks_in_source(types, place, source),
        CondTree::Folded { source, tests, .. } => {
            lacks_in_source(types, place, source) || lacks_in_tests(place, tests.as_slice())
        }
    }
}

// ---- variables

/// An operand, or a leaf of an expression, that names a variable which is not in sight.
#[derive(Drop)]
pub(crate) struct Unseen<'p> {
    pub(crate) place: &'p Place<'p, 'p>,
}

impl<'p> OperandTest for Unseen<'p> {
    ghost use Rattle.drl_typing.specs.Uses.{operand_unseen};

    ghost test = { λ s. operand_unseen s.place.now.sight };

    fn holds(&self, operand: &Operand) -> bool {
        match operand {
            Operand::Var(var) => is_out_of_sight(self.place, var),
            Operand::VarField(var, _) => is_out_of_sight(self.place, var),
            Operand::Lit(_) => false,
            Operand::Own(_) => false,
        }
    }
}

/// Whether no variable of this name is in sight.
pub(crate) fn is_out_of_sight(place: &Place, name: &Text) -> bool
    ensures { result ≡ is_unseen place.now.sight name.now }
{
    place.find(name).is_none()
}

// A part whose other event, or an operand of which, is a variable that is not in sight.
fn is_part_unseen(place: &Place, part: &Part) -> bool
    ensures { result ≡ part_unseen place.now.sight part.now }
{
    match part {
        Part::Bind { .. } => false,
        Part::Temporal { other, .. } => is_out_of_sight(place, other),
        Part::AnyOf(_) => some_operand(&Unseen { place }, part),
    }
}

fn is_source_unseen(place: &Place, source: &SourceTree) -> bool
    ensures { result ≡ source_unseen place.now.sight source.now }
{
    source
        .parts
        .as_slice()
        .iter()
        .any(|part| is_part_unseen(place, part))
}

fn is_test_unseen(place: &Place, test: &(Rel, Operand)) -> bool
    ensures { result ≡ test_unseen place.now.sight test.now }
{
    Unseen { place }.holds(&test.1)
}

fn is_some_test_unseen(place: &Place, tests: &[(Rel, Operand)]) -> bool
    ensures { result ≡ list_any (test_unseen place.now.sight) tests.now }
{
    tests.iter().any(|test| is_test_unseen(place, test))
}

/// Whether a condition names a variable that is not in sight.
pub(crate) fn lacks_variable(place: &Place, condition: &CondTree) -> bool
    ensures { result ≡ has_unknown_variable place.now condition.now }
{
    match condition {
        CondTree::Plain(source) => is_source_unseen(place, source),
        CondTree::Negated(source) => is_source_unseen(place, source),
        CondTree::Existing(source) => is_source_unseen(place, source),
        CondTree::Folded {
            source,
            arg,
            tests,
            ..
        } => {
            is_source_unseen(place, source)
                || !binds(source, arg)
                || is_some_test_unseen(place, tests.as_slice())
        }
    }
}
