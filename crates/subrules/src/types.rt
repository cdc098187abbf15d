ghost use Rattle.std.specs.Prelude.{◌≡◌, ◌++◌, map, IfOk, OnOk};
ghost use Rattle.std.specs.Prelude.{not};
ghost use Rattle.std.specs.List.{filter};
ghost use Rattle.subrules.specs.Expanded.{meta_word, has_word, inherited_metas, inherited_fields, plain_type, type_behind};

use crate::hierarchy::Hierarchy;
use drl_grammar::{Meta, TypeTree, WrittenType, copy_pairs};
use fx_base::{Copies, NoMemory, Seq, Text};
use std::alloc::Global;

fn word_of_meta(meta: &Meta) -> &'static str
    ensures { result.now ≡ meta_word meta.now }
{
    match meta {
        Meta::Role(_) => "role",
        Meta::Timestamp(_) => "timestamp",
        Meta::Duration(_) => "duration",
        Meta::Expires(_) => "expires",
        Meta::Reference => "reference",
    }
}

// Whether one of the annotations has the word of this one.
fn has_word_of(metas: &[Meta], meta: &Meta) -> bool
    ensures { result ≡ has_word metas.now meta.now }
{
    let word = word_of_meta(meta);
    for other in metas {
        if word == word_of_meta(other) {
            return true;
        }
    }
    false
}

// Those of other annotations whose word none of these has.
fn new_ones(alloc: Global, metas: &[Meta], others: &[Meta]) -> Result<Vec<Meta>, NoMemory>
    ensures { IfOk result (λ new. new.items ≡ filter (λ m. not (has_word metas.now m)) others.now) }
{
    let mut new = Vec::new(alloc);
    for meta in others {
        if !has_word_of(metas, meta) {
            new.push(meta.copy(alloc)?)?;
        }
    }
    Ok(new)
}

// Annotations, and behind them those of others whose word none of them has.
fn with_others(alloc: Global, metas: Vec<Meta>, others: &[Meta]) -> Result<Vec<Meta>, NoMemory>
    ensures { IfOk result (λ all. all.items ≡ metas.items ++ filter (λ m. not (has_word metas.items m)) others.now) }
{
    let new = new_ones(alloc, &metas, others)?;
    let mut all = metas;
    for meta in new {
        all.push(meta)?;
    }
    Ok(all)
}

// The annotations of a type, and those that it inherits.
#[tactic(auto, unfolding(crate::specs::Expanded::inherited_metas))]
fn all_metas(alloc: Global, own: &Seq<Meta>, above: &[&WrittenType]) -> Result<Seq<Meta>, NoMemory>
    ensures { IfOk result (λ metas. metas ≡ inherited_metas own.now (map (λ t. t.now) above.now)) }
{
    let mut metas = own.copy(alloc)?.into_vec();
    for tree in above {
        metas = with_others(alloc, metas, tree.metas.as_slice())?;
    }
    Ok(Seq::from_vec(metas))
}

// The fields of a type, behind those of a type that it extends.
fn behind_fields(
    alloc: Global,
    first: &Seq<(Text, Text)>,
    fields: Vec<(Text, Text)>,
) -> Result<Vec<(Text, Text)>, NoMemory>
    ensures { IfOk result (λ all. all.items ≡ first.now ++ fields.items) }
{
    let mut all = copy_pairs(alloc, first)?.into_vec();
    for field in fields {
        all.push(field)?;
    }
    Ok(all)
}

// The fields that a type inherits, and its own behind them.
#[tactic(auto, unfolding(crate::specs::Expanded::inherited_fields))]
fn all_fields(
    alloc: Global,
    own: &Seq<(Text, Text)>,
    above: &[&WrittenType],
) -> Result<Seq<(Text, Text)>, NoMemory>
    ensures { IfOk result (λ fields. fields ≡ inherited_fields own.now (map (λ t. t.now) above.now)) }
{
    let mut fields = copy_pairs(alloc, own)?.into_vec();
    for tree in above {
        fields = behind_fields(alloc, &tree.fields, fields)?;
    }
    Ok(Seq::from_vec(fields))
}

/// A type with all that it inherits, by the types above it. It costs a look-up for each, and what is copied.
pub(crate) fn plain(
    alloc: Global,
    types: &Hierarchy,
    tree: &WrittenType,
) -> Result<TypeTree, NoMemory>
    ensures { IfOk result (λ made. made ≡ plain_type types.now tree.now) }
{
    let above = types.above(alloc, tree)?;
    let metas = all_metas(alloc, &tree.metas, &above)?;
    let fields = all_fields(alloc, &tree.fields, &above)?;
    Ok(TypeTree {
        name: tree.name.copy(alloc)?,
        metas,
        fields,
    })
}

/// A type with what it inherits from one that has all that it inherits itself.
pub(crate) fn behind(
    alloc: Global,
    above: &TypeTree,
    tree: &WrittenType,
) -> Result<TypeTree, NoMemory>
    ensures { IfOk result (λ made. made ≡ type_behind above.now tree.now) }
{
    let metas = with_others(
        alloc,
        tree.metas.copy(alloc)?.into_vec(),
        above.metas.as_slice(),
    )?;
    let fields = behind_fields(
        alloc,
        &above.fields,
        copy_pairs(alloc, &tree.fields)?.into_vec(),
    )?;
    Ok(TypeTree {
        name: tree.name.copy(alloc)?,
        metas: Seq::from_vec(metas),
        fields: Seq::from_vec(fields),
    })
}
