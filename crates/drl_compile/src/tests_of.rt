ghost use Rattle.std.specs.Prelude.{◌≡◌, ◌++◌, map, IfOk, OnOk};
ghost use Rattle.std.specs.List.{filter, flat_map};
ghost use Rattle.drl_scope.specs.Sight.{meaning_of};
ghost use Rattle.drl_compile.specs.Programs.{rel_tag, literal_value, variable_side, variable_field_side, time_tests_in, result_side, result_test, side_of, compare_of, test_of, tests_in, is_joined, is_constant};

use crate::numbers::{fact_of_variable, field_number, variable_against, variable_field_against};
use crate::operators::operator;
use drl_expr::LitTree;
use drl_grammar::{Cmp, Operand, Part};
use drl_lex::Rel;
use drl_scope::{DeclaredType, OperandTest, Place, some_operand};
use fx_base::{Copies, NoMemory, Seq, Text, Value};
use rule_model::{Compare, RelTag, ResultTest, Side, Test, TimeTest};
use std::alloc::Global;

fn relation(rel: Rel) -> RelTag
    ensures { result ≡ rel_tag rel }
{
    match rel {
        Rel::Equal => RelTag::Equal,
        Rel::NotEqual => RelTag::NotEqual,
        Rel::Less => RelTag::Less,
        Rel::LessOrEqual => RelTag::LessOrEqual,
        Rel::Greater => RelTag::Greater,
        Rel::GreaterOrEqual => RelTag::GreaterOrEqual,
    }
}

/// The value of a literal.
pub(crate) fn value(alloc: Global, literal: &LitTree) -> Result<Value, NoMemory>
    ensures { IfOk result (λ value. value ≡ literal_value literal.now) }
{
    match literal {
        LitTree::Int(number) => Ok(Value::Int(*number)),
        LitTree::Bool(truth) => Ok(Value::Bool(*truth)),
        LitTree::Text(text) => Ok(Value::Text(text.copy(alloc)?)),
    }
}

// What a variable is that is compared with.
fn side_of_variable(place: &Place, var: &Text) -> Side
    ensures { result ≡ variable_side (meaning_of place.now.sight var.now) }
{
    match place.find(var) {
        Some(meaning) => variable_against(meaning),
        None => Side::Own(0),
    }
}

// What a field of a variable is that is compared with.
fn side_of_field(place: &Place, var: &Text, field: &Text) -> Side
    ensures { result ≡ variable_field_side (meaning_of place.now.sight var.now) field.now }
{
    match place.find(var) {
        Some(meaning) => variable_field_against(meaning, field),
        None => Side::Own(0),
    }
}

fn side(
    alloc: Global,
    ty: &DeclaredType,
    place: &Place,
    operand: &Operand,
) -> Result<Side, NoMemory>
    ensures { IfOk result (λ side. side ≡ side_of ty.now place.now.sight operand.now) }
{
    match operand {
        Operand::Lit(literal) => Ok(Side::Lit(value(alloc, literal)?)),
        Operand::Own(field) => Ok(Side::Own(field_number(ty, field))),
        Operand::Var(var) => Ok(side_of_variable(place, var)),
        Operand::VarField(var, field) => Ok(side_of_field(place, var, field)),
    }
}

fn sides(
    alloc: Global,
    ty: &DeclaredType,
    place: &Place,
    operands: &[Operand],
) -> Result<Seq<Side>, NoMemory>
    ensures { IfOk result (λ sides. sides ≡ map (side_of ty.now place.now.sight) operands.now) }
{
    let mut sides = Vec::with_capacity(alloc, operands.len())?;
    for operand in operands {
        sides.push(side(alloc, ty, place, operand)?)?;
    }
    Ok(Seq::from_vec(sides))
}

fn compare(alloc: Global, ty: &DeclaredType, place: &Place, cmp: &Cmp) -> Result<Compare, NoMemory>
    ensures { IfOk result (λ compare. compare ≡ compare_of ty.now place.now.sight cmp.now) }
{
    match cmp {
        Cmp::Rel {
            field,
            rel,
            operand,
        } => Ok(Compare {
            field: field_number(ty, field),
            rel: relation(*rel),
            against: Seq::from_vec(vec![in alloc; side(alloc, ty, place, operand)?]?),
        }),
        Cmp::OneOf { field, operands } => Ok(Compare {
            field: field_number(ty, field),
            rel: RelTag::OneOf,
            against: sides(alloc, ty, place, operands.as_slice())?,
        }),
    }
}

fn choice(
    alloc: Global,
    ty: &DeclaredType,
    place: &Place,
    group: &[Cmp],
) -> Result<Seq<Compare>, NoMemory>
    ensures { IfOk result (λ compares. compares ≡ map (compare_of ty.now place.now.sight) group.now) }
{
    let mut compares = Vec::with_capacity(alloc, group.len())?;
    for cmp in group {
        compares.push(compare(alloc, ty, place, cmp)?)?;
    }
    Ok(Seq::from_vec(compares))
}

fn test(
    alloc: Global,
    ty: &DeclaredType,
    place: &Place,
    groups: &[Seq<Cmp>],
) -> Result<Test, NoMemory>
    ensures { IfOk result (λ test. test ≡ test_of ty.now place.now.sight groups.now) }
{
    let mut choices = Vec::with_capacity(alloc, groups.len())?;
    for group in groups {
        choices.push(choice(alloc, ty, place, group.as_slice())?)?;
    }
    Ok(Test {
        choices: Seq::from_vec(choices),
    })
}

// Adds the test of values that a part is, where it is one.
fn add_test(
    alloc: Global,
    tests: &mut Vec<Test>,
    ty: &DeclaredType,
    place: &Place,
    part: &Part,
) -> Result<(), NoMemory>
    ensures { OnOk result (tests.new.items ≡ tests.old.items ++ tests_in ty.now place.now.sight part.now) }
{
    match part {
        Part::AnyOf(groups) => {
            tests.push(test(alloc, ty, place, groups.as_slice())?)?;
            Ok(())
        }
        Part::Bind { .. } | Part::Temporal { .. } => Ok(()),
    }
}

// Whether an operand is a variable, or a field of one.
#[derive(Drop)]
struct NamesVariable;

impl OperandTest for NamesVariable {
    ghost use Rattle.drl_compile.specs.Programs.{is_variable};

    ghost test = { λ _ operand. is_variable operand };

    fn holds(&self, operand: &Operand) -> bool {
        match operand {
            Operand::Var(_) => true,
            Operand::VarField(_, _) => true,
            Operand::Lit(_) | Operand::Own(_) => false,
        }
    }
}

fn is_part_joined(part: &Part) -> bool
    ensures { result ≡ is_joined part.now }
{
    some_operand(&NamesVariable, part)
}

/// The tests that name no variable.
pub(crate) fn constant_tests(
    alloc: Global,
    ty: &DeclaredType,
    place: &Place,
    parts: &[Part],
) -> Result<Seq<Test>, NoMemory>
    ensures { IfOk result (λ tests. tests ≡ flat_map (tests_in ty.now place.now.sight) (filter is_constant parts.now)) }
{
    let mut tests = Vec::new(alloc);
    for part in parts {
        if !is_part_joined(part) {
            add_test(alloc, &mut tests, ty, place, part)?;
        }
    }
    Ok(Seq::from_vec(tests))
}

/// The tests that name a variable.
pub(crate) fn joined_tests(
    alloc: Global,
    ty: &DeclaredType,
    place: &Place,
    parts: &[Part],
) -> Result<Seq<Test>, NoMemory>
    ensures { IfOk result (λ tests. tests ≡ flat_map (tests_in ty.now place.now.sight) (filter is_joined parts.now)) }
{
    let mut tests = Vec::new(alloc);
    for part in parts {
        if is_part_joined(part) {
            add_test(alloc, &mut tests, ty, place, part)?;
        }
    }
    Ok(Seq::from_vec(tests))
}

// ---- temporal tests

// Adds the temporal test that a part is, where it is one.
fn add_time(tests: &mut Vec<TimeTest>, place: &Place, part: &Part) -> Result<(), NoMemory>
    ensures { OnOk result (tests.new.items ≡ tests.old.items ++ time_tests_in place.now.sight part.now) }
{
    match part {
        Part::Temporal { op, params, other } => match operator(*op, params.as_slice()) {
            Some(op) => {
                tests.push(TimeTest {
                    op,
                    fact: fact_of_variable(place, other),
                })?;
                Ok(())
            }
            None => Ok(()),
        },
        Part::Bind { .. } | Part::AnyOf(_) => Ok(()),
    }
}

/// The temporal tests.
pub(crate) fn time_tests(
    alloc: Global,
    place: &Place,
    parts: &[Part],
) -> Result<Seq<TimeTest>, NoMemory>
    ensures { IfOk result (λ tests. tests ≡ flat_map (time_tests_in place.now.sight) parts.now) }
{
    let mut tests = Vec::new(alloc);
    for part in parts {
        add_time(&mut tests, place, part)?;
    }
    Ok(Seq::from_vec(tests))
}

// ---- tests of a result

// A result has no fields of its own.
fn side_of_result(alloc: Global, place: &Place, operand: &Operand) -> Result<Side, NoMemory>
    ensures { IfOk result (λ side. side ≡ result_side place.now.sight operand.now) }
{
    match operand {
        Operand::Lit(literal) => Ok(Side::Lit(value(alloc, literal)?)),
        Operand::Own(_) => Ok(Side::Lit(Value::Int(0))),
        Operand::Var(var) => Ok(side_of_variable(place, var)),
        Operand::VarField(var, field) => Ok(side_of_field(place, var, field)),
    }
}

/// The tests of the result of an accumulate.
pub(crate) fn result_tests(
    alloc: Global,
    place: &Place,
    trees: &[(Rel, Operand)],
) -> Result<Seq<ResultTest>, NoMemory>
    ensures { IfOk result (λ tests. tests ≡ map (result_test place.now.sight) trees.now) }
{
    let mut tests = Vec::with_capacity(alloc, trees.len())?;
    for tree in trees {
        tests.push(ResultTest {
            rel: relation(tree.0),
            against: side_of_result(alloc, place, &tree.1)?,
        })?;
    }
    Ok(Seq::from_vec(tests))
}
