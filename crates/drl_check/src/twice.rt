ghost use Rattle.std.specs.Prelude.{◌≡◌, ◌++◌, map, IfOk, OnOk};
ghost use Rattle.std.specs.List.{list_all};
ghost use Rattle.drl_check.specs.Twice.{attr_word, own_variable, part_variable, source_variables, variables_bound, bound_variables, set_names, assigns_once, annotation_word, is_repeated};
ghost use Rattle.drl_scope.specs.Names.{are_distinct};
ghost use Rattle.drl_scope.specs.Declarations.{field_names};

use drl_expr::ExprTree;
use drl_grammar::{ActTree, Attr, Body, CondTree, Meta, Part, RuleTree, SourceTree, TypeTree};
use drl_scope::{Places, differ, names_of_fields};
use fx_base::{Copies, NoMemory, Text};
use std::alloc::Global;

fn word_of_attr(attr: &Attr) -> &'static str
    ensures { result.now ≡ attr_word attr.now }
{
    match attr {
        Attr::Salience(_) => "salience",
        Attr::Dialect(_) => "dialect",
    }
}

fn words_of_attrs(alloc: Global, attrs: &[Attr]) -> Result<Vec<Text>, NoMemory>
    ensures { IfOk result (λ words. words.items ≡ map attr_word attrs.now) }
{
    let mut words = Vec::with_capacity(alloc, attrs.len())?;
    for attr in attrs {
        words.push(Text::new(alloc, word_of_attr(attr))?)?;
    }
    Ok(words)
}

fn add_own(alloc: Global, names: &mut Vec<Text>, var: &Option<Text>) -> Result<(), NoMemory>
    ensures { OnOk result (names.new.items ≡ names.old.items ++ own_variable var.now) }
{
    match var {
        Some(name) => names.push(name.copy(alloc)?)?,
        None => {}
    }
    Ok(())
}

fn add_part(alloc: Global, names: &mut Vec<Text>, part: &Part) -> Result<(), NoMemory>
    ensures { OnOk result (names.new.items ≡ names.old.items ++ part_variable part.now) }
{
    match part {
        Part::Bind { var, field: _ } => names.push(var.copy(alloc)?)?,
        Part::Temporal { .. } | Part::AnyOf(_) => {}
    }
    Ok(())
}

fn add_source(alloc: Global, names: &mut Vec<Text>, source: &SourceTree) -> Result<(), NoMemory>
    ensures { OnOk result (names.new.items ≡ names.old.items ++ source_variables source.now) }
{
    add_own(alloc, names, &source.var)?;
    for part in source.parts.as_slice() {
        add_part(alloc, names, part)?;
    }
    Ok(())
}

fn add_condition(alloc: Global, names: &mut Vec<Text>, condition: &CondTree) -> Result<(), NoMemory>
    ensures { OnOk result (names.new.items ≡ names.old.items ++ variables_bound condition.now) }
{
    match condition {
        CondTree::Plain(source) => add_source(alloc, names, source),
        CondTree::Negated(source) => add_source(alloc, names, source),
        CondTree::Existing(source) => add_source(alloc, names, source),
        CondTree::Folded { result, source, .. } => {
            add_source(alloc, names, source)?;
            add_own(alloc, names, result)
        }
    }
}

fn variables_of_rule(alloc: Global, tree: &RuleTree) -> Result<Vec<Text>, NoMemory>
    ensures { IfOk result (λ names. names.items ≡ bound_variables tree.now) }
{
    let mut names = Vec::new(alloc);
    for condition in tree.conditions.as_slice() {
        add_condition(alloc, &mut names, condition)?;
    }
    Ok(names)
}

fn names_of_sets(alloc: Global, sets: &[(Text, ExprTree)]) -> Result<Vec<Text>, NoMemory>
    ensures { IfOk result (λ names. names.items ≡ set_names sets.now) }
{
    let mut names = Vec::with_capacity(alloc, sets.len())?;
    for set in sets {
        names.push(set.0.copy(alloc)?)?;
    }
    Ok(names)
}

fn has_sets_apart(alloc: Global, action: &ActTree) -> Result<bool, NoMemory>
    ensures { IfOk result (λ apart. apart ≡ assigns_once action.now) }
{
    match action {
        ActTree::Modify { sets, .. } => differ(alloc, &names_of_sets(alloc, sets.as_slice())?),
        ActTree::Insert { .. } | ActTree::Retract(_) => Ok(true),
    }
}

fn have_sets_apart(alloc: Global, actions: &[ActTree]) -> Result<bool, NoMemory>
    ensures { IfOk result (λ apart. apart ≡ list_all assigns_once actions.now) }
{
    for action in actions {
        if !has_sets_apart(alloc, action)? {
            return Ok(false);
        }
    }
    Ok(true)
}

fn word_of_meta(meta: &Meta) -> &'static str
    ensures { result.now ≡ annotation_word meta.now }
{
    match meta {
        Meta::Role(_) => "role",
        Meta::Timestamp(_) => "timestamp",
        Meta::Duration(_) => "duration",
        Meta::Expires(_) => "expires",
        Meta::Reference => "reference",
    }
}

fn words_of_metas(alloc: Global, metas: &[Meta]) -> Result<Vec<Text>, NoMemory>
    ensures { IfOk result (λ words. words.items ≡ map annotation_word metas.now) }
{
    let mut words = Vec::with_capacity(alloc, metas.len())?;
    for meta in metas {
        words.push(Text::new(alloc, word_of_meta(meta))?)?;
    }
    Ok(words)
}

fn have_metas_apart(alloc: Global, tree: &TypeTree) -> Result<bool, NoMemory>
    ensures { IfOk result (λ apart. apart ≡ are_distinct (map annotation_word tree.now.metas)) }
{
    differ(alloc, &words_of_metas(alloc, tree.metas.as_slice())?)
}

fn have_fields_apart(alloc: Global, tree: &TypeTree) -> Result<bool, NoMemory>
    ensures { IfOk result (λ apart. apart ≡ are_distinct (field_names tree.now)) }
{
    differ(alloc, &names_of_fields(alloc, tree)?)
}

fn have_attrs_apart(alloc: Global, tree: &RuleTree) -> Result<bool, NoMemory>
    ensures { IfOk result (λ apart. apart ≡ are_distinct (map attr_word tree.now.attrs)) }
{
    differ(alloc, &words_of_attrs(alloc, tree.attrs.as_slice())?)
}

fn have_variables_apart(alloc: Global, tree: &RuleTree) -> Result<bool, NoMemory>
    ensures { IfOk result (λ apart. apart ≡ are_distinct (bound_variables tree.now)) }
{
    differ(alloc, &variables_of_rule(alloc, tree)?)
}

/// Whether an item declares what one of these types, entry points or rules declares, or has an annotation, a field, an
/// attribute or a variable twice, or assigns a field twice in one modification.
pub(crate) fn repeats(
    alloc: Global,
    types: &Places,
    entries: &Places,
    rules: &Places,
    body: &Body,
) -> Result<bool, NoMemory>
    ensures { IfOk result (λ twice. twice ≡ is_repeated types.now entries.now rules.now body.now) }
{
    match body {
        Body::Declare(tree) => Ok(
            types.holds(&tree.name)
                || !have_metas_apart(alloc, tree)?
                || !have_fields_apart(alloc, tree)?,
        ),
        Body::Entry { name, .. } => Ok(entries.holds(name)),
        Body::Rule(tree) => Ok(
            rules.holds(&tree.name)
                || !have_attrs_apart(alloc, tree)?
                || !have_variables_apart(alloc, tree)?
                || !have_sets_apart(alloc, tree.actions.as_slice())?,
        ),
        Body::Package(_) | Body::Import { .. } | Body::Dialect(_) => Ok(false),
    }
}
