ghost use Rattle.std.specs.Prelude.{◌≡◌, option_map, IfOk};
ghost use Rattle.std.specs.List.{flat_map};
ghost use Rattle.drl_names.specs.Names.{written, fact_name, result_name, names_of_rule, names_of};

use drl_grammar::{Body, CondTree, File, RuleTree};
use fx_base::{NoMemory, Seq, Text};
use std::alloc::Global;

/// The names of a rule's variables, each with its `$`, in the order of the conditions: of those that patterns bind to their
/// facts, and of those that accumulates bind to their results. `None` stands where there is no variable.
#[derive(Debug, Drop)]
pub struct RuleNames {
    pub facts: Seq<Option<Text>>,
    pub results: Seq<Option<Text>>,
}

// A variable with its `$`.
fn with_dollar(alloc: Global, variable: &Option<Text>) -> Result<Option<Text>, NoMemory>
    ensures { IfOk result (λ name. name ≡ option_map written variable.now) }
{
    match variable {
        Some(name) => {
            let mut text = String::from_str(alloc, "$")?;
            text.push_str(name.as_str())?;
            Ok(Some(Text::new(alloc, text.as_str())?))
        }
        None => Ok(None),
    }
}

fn names_of_facts(alloc: Global, conditions: &[CondTree]) -> Result<Seq<Option<Text>>, NoMemory>
    ensures { IfOk result (λ names. names ≡ flat_map fact_name conditions.now) }
{
    let mut names = Vec::new(alloc);
    for condition in conditions {
        match condition {
            CondTree::Plain(source) => names.push(with_dollar(alloc, &source.var)?)?,
            CondTree::Negated(_) | CondTree::Existing(_) | CondTree::Folded { .. } => {}
        }
    }
    Ok(Seq::from_vec(names))
}

fn names_of_results(alloc: Global, conditions: &[CondTree]) -> Result<Seq<Option<Text>>, NoMemory>
    ensures { IfOk result (λ names. names ≡ flat_map result_name conditions.now) }
{
    let mut names = Vec::new(alloc);
    for condition in conditions {
        match condition {
            CondTree::Folded { result, .. } => names.push(with_dollar(alloc, result)?)?,
            CondTree::Plain(_) | CondTree::Negated(_) | CondTree::Existing(_) => {}
        }
    }
    Ok(Seq::from_vec(names))
}

fn names_in(alloc: Global, tree: &RuleTree) -> Result<RuleNames, NoMemory>
    ensures { IfOk result (λ names. names ≡ names_of_rule tree.now) }
{
    Ok(RuleNames {
        facts: names_of_facts(alloc, tree.conditions.as_slice())?,
        results: names_of_results(alloc, tree.conditions.as_slice())?,
    })
}

/// The names of each rule of a file, in their order, which is that of the rules of its program.
pub fn names(alloc: Global, file: &File) -> Result<Seq<RuleNames>, NoMemory>
    ensures { IfOk result (λ names. names ≡ names_of file.now) }
{
    let mut names = Vec::new(alloc);
    for item in file.items.as_slice() {
        match &item.body {
            Body::Rule(tree) => names.push(names_in(alloc, tree)?)?,
            Body::Package(_)
            | Body::Import { .. }
            | Body::Dialect(_)
            | Body::Declare(_)
            | Body::Entry { .. } => {}
        }
    }
    Ok(Seq::from_vec(names))
}
