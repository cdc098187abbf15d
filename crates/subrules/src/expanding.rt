ghost use Rattle.std.specs.Prelude.{◌≡◌, ◌<◌, ◌≤◌, ◌⊎◌, ◌++◌, length, map, take, drop, IfOk, IfErr, OnOk};
ghost use Rattle.std.specs.List.{flat_map};
ghost use Rattle.drl_grammar.specs.declared.file.Body.TheVariants.{Rule as RuleBody};
ghost use Rattle.subrules.specs.Expanded.{at_line, body_of, plain_bodies, plain_items, titles_in, origins_from};
ghost use Rattle.subrules.specs.Front.{short_items};
ghost use Rattle.subrules.specs.Known.{AreKnown, IsHeir};
ghost use Rattle.subrules.specs.Outcomes.{IsExpanded, IsRefusal};

use crate::fault::ExpandFault;
use crate::faults::first_obstacle;
use crate::heirs::{heirs, whole};
use crate::hierarchy::Hierarchy;
use crate::rules::plain_rules;
use crate::watchers::shortened;
use drl_grammar::{Body, File, Item, RuleTree, TypeTree, Written, WrittenBody, WrittenItem};
use fx_base::{Copies, NoMemory, Seq, Text};
use std::alloc::Global;

/// The most rules of a plain file.
const RULES_MAX: usize = 256;

/// A written file written out.
#[derive(Debug, Drop)]
pub struct Expanded {
    /// The plain file. Its items are whole as far as they come from the front of the written file.
    pub file: File,
    /// How many items of the written file are its front: all, or as many as give more than 256 rules.
    pub front: usize,
    /// For each item of the plain file that comes from the front the number of the item that it comes from, counted from 1.
    pub origins: Seq<u64>,
    /// For each rule of the plain file that comes from the front the name of the rule that it comes from.
    pub titles: Seq<Text>,
}

/// What is written out so far, and of how many items.
#[derive(Drop)]
struct Made {
    items: Vec<Item>,
    front: usize,
    origins: Vec<u64>,
    titles: Vec<Text>,
}

// The body that an item other than a rule is written out to.
fn plain_body(
    alloc: Global,
    types: &Hierarchy,
    known: &[Option<TypeTree>],
    body: &WrittenBody,
) -> Result<Option<Body>, NoMemory>
    requires { AreKnown (IsHeir types.now) types.now known.now }
    ensures { IfOk result (λ made. made ≡ body_of types.now body.now) }
{
    match body {
        WrittenBody::Package(path) => Ok(Some(Body::Package(path.copy(alloc)?))),
        WrittenBody::Import { path, star } => {
            let path = path.copy(alloc)?;
            Ok(Some(Body::Import { path, star: *star }))
        }
        WrittenBody::Dialect(text) => Ok(Some(Body::Dialect(text.copy(alloc)?))),
        WrittenBody::Declare(tree) => Ok(Some(Body::Declare(whole(alloc, types, known, tree)?))),
        WrittenBody::Entry { name, lateness } => {
            let name = name.copy(alloc)?;
            Ok(Some(Body::Entry {
                name,
                lateness: *lateness,
            }))
        }
        WrittenBody::Rule(_) => Ok(None),
    }
}

// Adds the rules that a rule is written out to.
fn add_rules(
    alloc: Global,
    made: &mut Made,
    number: u64,
    item: &WrittenItem,
    title: &Text,
    rules: Vec<RuleTree>,
) -> Result<(), NoMemory>
    ensures items { OnOk result (made.new.items.items ≡ made.old.items.items ++ map (at_line item.now.line) (map RuleBody rules.items)) }
    ensures origins { OnOk result (made.new.origins.items ≡ made.old.origins.items ++ map (λ b. number) (map RuleBody rules.items)) }
    ensures titles { OnOk result (made.new.titles.items ≡ made.old.titles.items ++ map (λ rule. title.now) rules.items) }
    ensures front { made.new.front ≡ made.old.front }
{
    for rule in rules {
        made.items.push(Item {
            line: item.line,
            body: Body::Rule(rule),
        })?;
        made.origins.push(number)?;
        made.titles.push(title.copy(alloc)?)?;
    }
    Ok(())
}

// Adds what an item is written out to.
fn add_item(
    alloc: Global,
    types: &Hierarchy,
    known: &[Option<TypeTree>],
    made: &mut Made,
    number: u64,
    item: &WrittenItem,
) -> Result<(), NoMemory>
    requires { AreKnown (IsHeir types.now) types.now known.now }
    ensures items { OnOk result (made.new.items.items ≡ made.old.items.items ++ plain_items types.now item.now) }
    ensures origins { OnOk result (made.new.origins.items ≡ made.old.origins.items ++ map (λ b. number) (plain_bodies types.now item.now.body)) }
    ensures titles { OnOk result (made.new.titles.items ≡ made.old.titles.items ++ titles_in types.now item.now.body) }
    ensures front { made.new.front ≡ made.old.front }
{
    match &item.body {
        WrittenBody::Rule(rule) => {
            let rules = plain_rules(alloc, types, rule)?;
            add_rules(alloc, made, number, item, &rule.name, rules)
        }
        _ => match plain_body(alloc, types, known, &item.body)? {
            Some(body) => {
                made.items.push(Item {
                    line: item.line,
                    body,
                })?;
                made.origins.push(number)?;
                Ok(())
            }
            None => Ok(()),
        },
    }
}

// Writes items out, until more rules come from them than a plain file may have.
#[tactic(auto, unfolding(crate::specs::Expanded::origins_from))]
fn front(
    alloc: Global,
    types: &Hierarchy,
    known: &[Option<TypeTree>],
    items: &[WrittenItem],
) -> Result<Made, NoMemory>
    requires { AreKnown (IsHeir types.now) types.now known.now }
    ensures within { IfOk result (λ made. made.front ≤ length items.now) }
    ensures items { IfOk result (λ made. made.items.items ≡ flat_map (plain_items types.now) (take made.front items.now)) }
    ensures origins { IfOk result (λ made. made.origins.items ≡ origins_from types.now 1 (take made.front items.now)) }
    ensures titles { IfOk result (λ made. made.titles.items ≡ flat_map (λ item. titles_in types.now item.body) (take made.front items.now)) }
    ensures ends { IfOk result (λ made. (length items.now ≤ made.front) ⊎ (256 < length made.titles.items)) }
{
    let mut made = Made {
        items: Vec::new(alloc),
        front: 0,
        origins: Vec::new(alloc),
        titles: Vec::new(alloc),
    };
    for item in items {
        if made.titles.len() > RULES_MAX {
            return Ok(made);
        }
        made.front += 1;
        let number = made.front as u64;
        add_item(alloc, types, known, &mut made, number, item)?;
    }
    Ok(made)
}

// Adds these rules.
fn add_trees(
    items: &mut Vec<Item>,
    item: &WrittenItem,
    trees: Vec<RuleTree>,
) -> Result<(), NoMemory>
    ensures { OnOk result (items.new.items ≡ items.old.items ++ map (at_line item.now.line) (map RuleBody trees.items)) }
{
    for tree in trees {
        items.push(Item {
            line: item.line,
            body: Body::Rule(tree),
        })?;
    }
    Ok(())
}

// Adds what an item behind the front is written out to.
fn add_short(
    alloc: Global,
    types: &Hierarchy,
    known: &[Option<TypeTree>],
    items: &mut Vec<Item>,
    item: &WrittenItem,
) -> Result<(), NoMemory>
    requires { AreKnown (IsHeir types.now) types.now known.now }
    ensures { OnOk result (items.new.items ≡ items.old.items ++ short_items types.now item.now) }
{
    match &item.body {
        WrittenBody::Rule(rule) => {
            let trees = shortened(alloc, types, rule)?;
            add_trees(items, item, trees)
        }
        _ => match plain_body(alloc, types, known, &item.body)? {
            Some(body) => {
                items.push(Item {
                    line: item.line,
                    body,
                })?;
                Ok(())
            }
            None => Ok(()),
        },
    }
}

// Adds what the items behind the front are written out to.
fn add_behind(
    alloc: Global,
    types: &Hierarchy,
    known: &[Option<TypeTree>],
    items: &mut Vec<Item>,
    behind: &[WrittenItem],
) -> Result<(), NoMemory>
    requires { AreKnown (IsHeir types.now) types.now known.now }
    ensures { OnOk result (items.new.items ≡ items.old.items ++ flat_map (short_items types.now) behind.now) }
{
    for item in behind {
        add_short(alloc, types, known, items, item)?;
    }
    Ok(())
}

// Writes the items out: the front whole, and of those behind it what the checks of earlier items ask for.
fn written_out(
    alloc: Global,
    types: &Hierarchy,
    items: &[WrittenItem],
) -> Result<Expanded, NoMemory>
    ensures items { IfOk result (λ e. e.file.items ≡ flat_map (plain_items types.now) (take e.front items.now) ++ flat_map (short_items types.now) (drop e.front items.now)) }
    ensures origins { IfOk result (λ e. e.origins ≡ origins_from types.now 1 (take e.front items.now)) }
    ensures titles { IfOk result (λ e. e.titles ≡ flat_map (λ item. titles_in types.now item.body) (take e.front items.now)) }
    ensures ends { IfOk result (λ e. (length items.now ≤ e.front) ⊎ (256 < length e.titles)) }
{
    let known = heirs(alloc, types)?;
    let mut made = front(alloc, types, &known, items)?;
    let behind = &items[made.front..];
    add_behind(alloc, types, &known, &mut made.items, behind)?;
    Ok(Expanded {
        file: File {
            items: Seq::from_vec(made.items),
        },
        front: made.front,
        origins: Seq::from_vec(made.origins),
        titles: Seq::from_vec(made.titles),
    })
}

/// The plain file that a written one is written out to, exactly where each of its items can be; else the first that cannot, with the
/// first code that it has. A rule is written out to a rule for each way in which its alternatives and the subtypes of its patterns can
/// be met, the first varying slowest, and a type gets what it inherits. Once there are more than 256 rules, which a plain file may not
/// have, a rule gives only one with the conditions that watch a type: the checks of earlier items ask for nothing else. It costs what is
/// written out, and for each pattern on a type with subtypes the way upward from each type.
pub fn expand(alloc: Global, file: &Written) -> Result<Expanded, ExpandFault>
    ensures expanded { IfOk result (λ e. IsExpanded file.now e) }
    ensures refused { IfErr result (λ fault. IsRefusal file.now fault) }
{
    let items = file.items.as_slice();
    let types = Hierarchy::of(alloc, items)?;
    match first_obstacle(alloc, &types, items)? {
        Some(obstacle) => Err(ExpandFault::Refused(obstacle)),
        None => Ok(written_out(alloc, &types, items)?),
    }
}
