ghost use Rattle.std.specs.Prelude.{◌≡◌, ℕ, List, map, length};
ghost use Rattle.std.specs.List.{list_all};
ghost use Rattle.drl_grammar.specs.declared.condition.Cmp.{Cmp};
ghost use Rattle.drl_scope.specs.Declarations.{field_names};
ghost use Rattle.drl_scope.specs.EntryPoints.{entries_named, with_names};
ghost use Rattle.drl_limits.specs.Limits.{is_name, is_text, is_span_within_limit, is_entry_name, literal_within, operand_within, cmp_within, part_within, variable_within, entry_within, window_within, source_within, test_within, tests_within, condition_within, attr_within, rule_within, meta_within, type_within, lateness_within, exceeds_limit_behind};

use crate::action_limits::are_actions_within;
use crate::room::are_at_most;
use drl_expr::LitTree;
use drl_grammar::{
    Attr, Body, Cmp, CondTree, Meta, Operand, Part, RuleTree, SourceTree, TypeTree, WindowTree,
};
use drl_lex::Rel;
use drl_scope::has_at_most;
use fx_base::limits::{MOST_MILLIS, TEXT_MAX};
use fx_base::{Seq, Text};

const NAME_MAX: usize = 64;

const RULE_NAME_MAX: usize = 256;

const OPERANDS_MAX: usize = 32;

const WEIGHT_MAX: usize = 32;

const TESTS_MAX: usize = 32;

const LENGTH_MAX: u64 = 1_000_000;

const CONDITIONS_MAX: usize = 8;

const FIELDS_MAX: usize = 32;

const TYPES_MAX: usize = 128;

const RULES_MAX: usize = 256;

const ENTRIES_MAX: usize = 64;

const SALIENCE_MAX: u64 = 2_147_483_647;

/// Whether a name of a type, a field or a variable is short enough.
pub(crate) fn is_short_name(name: &Text) -> bool
    ensures { result ≡ is_name name.now }
{
    has_at_most(NAME_MAX, name)
}

fn is_entry_name_within(name: &Text) -> bool
    ensures { result ≡ is_entry_name name.now }
{
    name.as_str().len() > 0 && is_short_name(name)
}

#[tactic(auto, unfolding(crate::specs::Limits::span_limit))]
fn is_span_within(millis: i64) -> bool
    ensures { result ≡ is_span_within_limit millis }
{
    millis.unsigned_abs() <= MOST_MILLIS.unsigned_abs()
}

fn are_spans_within(spans: &[i64]) -> bool
    ensures { result ≡ list_all is_span_within_limit spans.now }
{
    spans.iter().all(|span| is_span_within(*span))
}

/// Whether a literal is no text that is too long.
pub(crate) fn is_literal_within(literal: &LitTree) -> bool
    ensures { result ≡ literal_within literal.now }
{
    match literal {
        LitTree::Text(text) => has_at_most(TEXT_MAX, text),
        LitTree::Int(_) | LitTree::Bool(_) => true,
    }
}

fn is_operand_within(operand: &Operand) -> bool
    ensures { result ≡ operand_within operand.now }
{
    match operand {
        Operand::Lit(literal) => is_literal_within(literal),
        Operand::Var(var) => is_short_name(var),
        Operand::VarField(var, field) => is_short_name(var) && is_short_name(field),
        Operand::Own(field) => is_short_name(field),
    }
}

fn are_operands_within(operands: &[Operand]) -> bool
    ensures { result ≡ list_all operand_within operands.now }
{
    operands.iter().all(|operand| is_operand_within(operand))
}

fn is_cmp_within(cmp: &Cmp) -> bool
    ensures { result ≡ cmp_within cmp.now }
{
    match cmp {
        Cmp::Rel { field, operand, .. } => is_short_name(field) && is_operand_within(operand),
        Cmp::OneOf { field, operands } => {
            is_short_name(field)
                && operands.as_slice().len() <= OPERANDS_MAX
                && are_operands_within(operands.as_slice())
        }
    }
}

fn is_group_within(group: &[Cmp]) -> bool
    ensures { result ≡ list_all cmp_within group.now }
{
    group.iter().all(|cmp| is_cmp_within(cmp))
}

fn are_groups_within(groups: &[Seq<Cmp>]) -> bool
    ensures { result ≡ list_all (λ (group : List Cmp). list_all cmp_within group) groups.now }
{
    groups.iter().all(|group| is_group_within(group.as_slice()))
}

fn is_part_within(part: &Part) -> bool
    ensures { result ≡ part_within part.now }
{
    match part {
        Part::Bind { var, field } => is_short_name(var) && is_short_name(field),
        Part::Temporal { params, other, .. } => {
            are_spans_within(params.as_slice()) && is_short_name(other)
        }
        Part::AnyOf(groups) => are_groups_within(groups.as_slice()),
    }
}

fn are_parts_within(parts: &[Part]) -> bool
    ensures { result ≡ list_all part_within parts.now }
{
    parts.iter().all(|part| is_part_within(part))
}

fn is_variable_within(var: &Option<Text>) -> bool
    ensures { result ≡ variable_within var.now }
{
    match var {
        Some(name) => is_short_name(name),
        None => true,
    }
}

fn is_entry_within(entry: &Option<Text>) -> bool
    ensures { result ≡ entry_within entry.now }
{
    match entry {
        Some(name) => is_entry_name_within(name),
        None => true,
    }
}

fn is_window_within(window: &Option<WindowTree>) -> bool
    ensures { result ≡ window_within window.now }
{
    match window {
        Some(WindowTree::Time(span)) => is_span_within(*span),
        Some(WindowTree::Length(count)) => count.unsigned_abs() <= LENGTH_MAX,
        None => true,
    }
}

fn is_source_within(source: &SourceTree) -> bool
    ensures { result ≡ source_within source.now }
{
    is_variable_within(&source.var)
        && is_short_name(&source.ty)
        && are_at_most(WEIGHT_MAX, source.parts.as_slice())
        && are_parts_within(source.parts.as_slice())
        && is_window_within(&source.window)
        && is_entry_within(&source.entry)
}

fn is_test_within(test: &(Rel, Operand)) -> bool
    ensures { result ≡ test_within test.now }
{
    is_operand_within(&test.1)
}

fn are_all_tests_within(tests: &[(Rel, Operand)]) -> bool
    ensures { result ≡ list_all test_within tests.now }
{
    tests.iter().all(|test| is_test_within(test))
}

fn are_tests_within(tests: &[(Rel, Operand)]) -> bool
    ensures { result ≡ tests_within tests.now }
{
    tests.len() <= TESTS_MAX && are_all_tests_within(tests)
}

fn is_condition_within(condition: &CondTree) -> bool
    ensures { result ≡ condition_within condition.now }
{
    match condition {
        CondTree::Plain(source) => is_source_within(source),
        CondTree::Negated(source) => is_source_within(source),
        CondTree::Existing(source) => is_source_within(source),
        CondTree::Folded {
            result,
            source,
            kind: _,
            arg,
            tests,
        } => {
            is_variable_within(result)
                && is_source_within(source)
                && is_short_name(arg)
                && are_tests_within(tests.as_slice())
        }
    }
}

fn are_conditions_within(conditions: &[CondTree]) -> bool
    ensures { result ≡ list_all condition_within conditions.now }
{
    conditions
        .iter()
        .all(|condition| is_condition_within(condition))
}

fn is_attr_within(attr: &Attr) -> bool
    ensures { result ≡ attr_within attr.now }
{
    match attr {
        Attr::Salience(number) => number.unsigned_abs() <= SALIENCE_MAX,
        Attr::Dialect(text) => has_at_most(TEXT_MAX, text),
    }
}

fn are_attrs_within(attrs: &[Attr]) -> bool
    ensures { result ≡ list_all attr_within attrs.now }
{
    attrs.iter().all(|attr| is_attr_within(attr))
}

fn is_rule_within(tree: &RuleTree) -> bool
    ensures { result ≡ rule_within tree.now }
{
    tree.name.as_str().len() > 0
        && has_at_most(RULE_NAME_MAX, &tree.name)
        && are_attrs_within(tree.attrs.as_slice())
        && tree.conditions.as_slice().len() > 0
        && tree.conditions.as_slice().len() <= CONDITIONS_MAX
        && are_conditions_within(tree.conditions.as_slice())
        && are_actions_within(tree.actions.as_slice())
}

fn are_fields_within(tree: &TypeTree) -> bool
    ensures { result ≡ list_all is_name (field_names tree.now) }
{
    for field in tree.fields.as_slice() {
        if !is_short_name(&field.0) {
            return false;
        }
    }
    true
}

fn is_meta_within(meta: &Meta) -> bool
    ensures { result ≡ meta_within meta.now }
{
    match meta {
        Meta::Timestamp(field) => is_short_name(field),
        Meta::Duration(field) => is_short_name(field),
        Meta::Role(_) | Meta::Reference => true,
        Meta::Expires(offset) => is_span_within(*offset),
    }
}

fn are_metas_within(metas: &[Meta]) -> bool
    ensures { result ≡ list_all meta_within metas.now }
{
    metas.iter().all(|meta| is_meta_within(meta))
}

fn is_type_within(tree: &TypeTree) -> bool
    ensures { result ≡ type_within tree.now }
{
    is_short_name(&tree.name)
        && tree.fields.as_slice().len() <= FIELDS_MAX
        && are_fields_within(tree)
        && are_metas_within(tree.metas.as_slice())
}

fn is_lateness_within(lateness: &Option<i64>) -> bool
    ensures { result ≡ lateness_within lateness.now }
{
    match lateness {
        Some(lateness) => is_span_within(*lateness),
        None => true,
    }
}

/// Whether an item exceeds a limit, where so many types and rules are declared before it, and there are so many entry points
/// with those that it names.
pub fn exceeds_limits(types: usize, entries: usize, rules: usize, body: &Body) -> bool
    ensures { (known : List (List ℕ)) → entries ≡ length (with_names known (entries_named body.now)) → result ≡ exceeds_limit_behind types rules known body.now }
{
    match body {
        Body::Declare(tree) => !(types < TYPES_MAX && is_type_within(tree)),
        Body::Entry { name, lateness } => {
            !(entries <= ENTRIES_MAX && is_entry_name_within(name) && is_lateness_within(lateness))
        }
        Body::Rule(tree) => !(rules < RULES_MAX && entries <= ENTRIES_MAX && is_rule_within(tree)),
        Body::Package(_) | Body::Import { .. } | Body::Dialect(_) => false,
    }
}
