ghost use Rattle.std.specs.Prelude.{◌≡◌, ◌++◌, map, option_map, IfOk};
ghost use Rattle.drl_scope.specs.Declarations.{types_of};
ghost use Rattle.drl_compile.specs.Observed.{is_observed_event};
ghost use Rattle.drl_compile.specs.Programs.{field_info, field_place, type_info, entry_info};

use crate::numbers::field_number;
use drl_grammar::{Body, Item, TypeTree};
use drl_scope::{
    DeclaredType, Places, duration_field, expiry_offset, is_event_tree, is_reference_tree,
    kind_of_word, lateness_of_entry, timestamp_field,
};
use fx_base::{Copies, Kind, NoMemory, Seq, Text};
use rule_model::{EntryInfo, TypeInfo};
use std::alloc::Global;

// ---- types

fn info_of_field(alloc: Global, field: &(Text, Text)) -> Result<(Text, Kind), NoMemory>
    ensures { IfOk result (λ info. info ≡ field_info field.now) }
{
    let kind = match kind_of_word(&field.1) {
        Some(kind) => kind,
        None => Kind::Int,
    };
    Ok((field.0.copy(alloc)?, kind))
}

fn infos_of_fields(alloc: Global, fields: &[(Text, Text)]) -> Result<Seq<(Text, Kind)>, NoMemory>
    ensures { IfOk result (λ infos. infos ≡ map field_info fields.now) }
{
    let mut infos = Vec::with_capacity(alloc, fields.len())?;
    for field in fields {
        infos.push(info_of_field(alloc, field)?)?;
    }
    Ok(Seq::from_vec(infos))
}

fn field_named(ty: &DeclaredType, name: Option<&Text>) -> Option<u8>
    ensures { result ≡ option_map (field_place ty.now) (option_map (λ f. f.now) name.entry) }
{
    match name {
        Some(name) => Some(field_number(ty, name)),
        None => None,
    }
}

fn is_observed(observed: &Places, tree: &TypeTree) -> bool
    ensures { result ≡ is_observed_event observed.now tree.now }
{
    is_event_tree(tree) && observed.holds(&tree.name)
}

fn info_of_type(alloc: Global, observed: &Places, tree: &TypeTree) -> Result<TypeInfo, NoMemory>
    ensures { IfOk result (λ info. info ≡ type_info observed.now tree.now) }
{
    let ty = DeclaredType::of(alloc, tree)?;
    info_with(alloc, observed, &ty, tree)
}

// The same, where the type of the tree is given.
fn info_with(
    alloc: Global,
    observed: &Places,
    ty: &DeclaredType,
    tree: &TypeTree,
) -> Result<TypeInfo, NoMemory>
    requires { ty.now ≡ tree.now }
    ensures { IfOk result (λ info. info ≡ type_info observed.now tree.now) }
{
    Ok(TypeInfo {
        name: tree.name.copy(alloc)?,
        event: is_event_tree(tree),
        reference: is_reference_tree(tree),
        fields: infos_of_fields(alloc, tree.fields.as_slice())?,
        timestamp: field_named(ty, timestamp_field(tree)),
        duration: field_named(ty, duration_field(tree)),
        expires: expiry_offset(tree),
        observed: is_observed(observed, tree),
    })
}

/// What is known of the types that the items declare, given the names of those that rules observe.
pub(crate) fn infos_of_types(
    alloc: Global,
    observed: &Places,
    items: &[Item],
) -> Result<Seq<TypeInfo>, NoMemory>
    ensures { IfOk result (λ infos. infos ≡ map (type_info observed.now) (types_of items.now)) }
{
    let mut infos = Vec::new(alloc);
    for item in items {
        match &item.body {
            Body::Declare(tree) => infos.push(info_of_type(alloc, observed, tree)?)?,
            Body::Package(_)
            | Body::Import { .. }
            | Body::Dialect(_)
            | Body::Entry { .. }
            | Body::Rule(_) => {}
        }
    }
    Ok(Seq::from_vec(infos))
}

// ---- entry points

fn info_of_entry(alloc: Global, items: &[Item], name: &Text) -> Result<EntryInfo, NoMemory>
    ensures { IfOk result (λ info. info ≡ entry_info items.now name.now) }
{
    Ok(EntryInfo {
        name: name.copy(alloc)?,
        lateness: lateness_of_entry(items, name),
    })
}

/// What is known of the entry points of these names, as the items declare them.
pub(crate) fn infos_of_entries(
    alloc: Global,
    entries: &[Text],
    items: &[Item],
) -> Result<Seq<EntryInfo>, NoMemory>
    ensures { IfOk result (λ infos. infos ≡ map (entry_info items.now) entries.now) }
{
    let mut infos = Vec::with_capacity(alloc, entries.len())?;
    for name in entries {
        infos.push(info_of_entry(alloc, items, name)?)?;
    }
    Ok(Seq::from_vec(infos))
}
