ghost use Rattle.std.specs.Prelude.{◌≡◌, ◌++◌, ◌∷◌, [], map, option_map, if◌then◌else◌, IfOk, OnOk};
ghost use Rattle.drl_expr.specs.Words.{is_among};
ghost use Rattle.drl_scope.specs.Declarations.{types_of, type_tree_named};
ghost use Rattle.drl_typing.specs.Kinds.{word_kind, taken_kinds, taken_by};

use drl_grammar::{Body, Item};
use drl_scope::{Declared, Places, kind_of_word};
use fx_base::{Kind, NoMemory, Seq, Text};
use std::alloc::Global;
use std::marker::Model;

/// The types of a file, with the kinds of the values that an insert of each takes. These are gathered once, so that a check of
/// an insert takes no longer where its type has many fields.
#[derive(Drop)]
pub struct Kinded<'a> {
    types: Declared<'a>,
    kinds: Vec<Seq<Option<Kind>>>,
}

impl<'a> Model for Kinded<'a> {
    ghost use Rattle.drl_grammar.specs.declared.file.TypeTree.{TypeTree};
    ghost use Rattle.std.specs.Prelude.{◌≡◌, List, map};
    ghost use Rattle.drl_typing.specs.Kinds.{taken_by};

    ghost Value = { List TypeTree };

    ghost view = { λ k. k.types };

    ghost invariant = { λ k. k.kinds.items ≡ map taken_by k.types };
}

// The kind of one field more, unless its name stands before.
fn add_kind(
    kinds: &mut Vec<Option<Kind>>,
    before: &Places,
    field: &(Text, Text),
) -> Result<(), NoMemory>
    ensures { OnOk result (kinds.new.items ≡ (if is_among before.now field.now.0 then kinds.old.items else kinds.old.items ++ word_kind field.now ∷ [])) }
{
    if !before.holds(&field.0) {
        kinds.push(kind_of_word(&field.1))?;
    }
    Ok(())
}

// The kinds of the values that an insert takes, by the fields of a type.
#[tactic(auto, unfolding(crate::specs::Kinds::fields_once))]
fn kinds_of_fields(alloc: Global, fields: &[(Text, Text)]) -> Result<Seq<Option<Kind>>, NoMemory>
    ensures { IfOk result (λ kinds. kinds ≡ taken_kinds fields.now) }
{
    let mut before = Places::new(alloc);
    let mut kinds = Vec::new(alloc);
    for field in fields {
        add_kind(&mut kinds, &before, field)?;
        before = before.with(alloc, &field.0)?;
    }
    Ok(Seq::from_vec(kinds))
}

fn kinds_of_types(alloc: Global, items: &[Item]) -> Result<Vec<Seq<Option<Kind>>>, NoMemory>
    ensures { IfOk result (λ kinds. kinds.items ≡ map taken_by (types_of items.now)) }
{
    let mut kinds = Vec::new(alloc);
    for item in items {
        match &item.body {
            Body::Declare(tree) => kinds.push(kinds_of_fields(alloc, tree.fields.as_slice())?)?,
            Body::Package(_)
            | Body::Import { .. }
            | Body::Dialect(_)
            | Body::Entry { .. }
            | Body::Rule(_) => {}
        }
    }
    Ok(kinds)
}

impl<'a> Kinded<'a> {
    /// The types that the items declare.
    pub fn of(alloc: Global, items: &'a [Item]) -> Result<Kinded<'a>, NoMemory>
        ensures { IfOk result (λ k. k ≡ types_of items.now) }
    {
        Ok(Kinded {
            types: Declared::of(alloc, items)?,
            kinds: kinds_of_types(alloc, items)?,
        })
    }

    /// The types.
    pub fn declared(&self) -> &Declared<'a>
        ensures { result.now ≡ self.now }
    {
        &self.types
    }

    /// The kinds of the values that an insert of the type of this name takes.
    pub(crate) fn taken(&self, name: &Text) -> Option<&Seq<Option<Kind>>>
        ensures { option_map (λ kinds. kinds.now) result ≡ option_map taken_by (type_tree_named self.now name.now) }
    {
        match self.types.place(name) {
            Some(place) => self.kinds.get(place),
            None => None,
        }
    }
}
