ghost use Rattle.std.specs.Prelude.{◌≡◌, ◌++◌, List, map, option_map, IfOk};
ghost use Rattle.drl_scope.specs.Names.{place_of_name};
ghost use Rattle.drl_expr.specs.Words.{is_among};
ghost use Rattle.drl_scope.specs.Declarations.{types_of, type_names, field_names, type_tree_named, kind_by_word, kind_at};
ghost use Rattle.drl_scope.specs.Meanings.{field_kind};
ghost use Rattle.drl_scope.specs.Annotations.{is_tree_of_events, reference_of};

use crate::annotations::{is_event_tree, is_reference_tree};
use crate::places::Places;
use drl_grammar::{Body, Item, TypeTree};
use fx_base::{Copies, Kind, NoMemory, Text};
use std::alloc::Global;
use std::marker::Model;

/// A type of the file. Its fields are found by their names.
#[derive(Drop)]
pub struct DeclaredType<'a> {
    tree: &'a TypeTree,
    fields: Places,
}

impl<'a> Model for DeclaredType<'a> {
    ghost use Rattle.drl_grammar.specs.declared.file.TypeTree.{TypeTree};
    ghost use Rattle.std.specs.Prelude.{◌≡◌};
    ghost use Rattle.drl_scope.specs.Declarations.{field_names};

    ghost Value = { TypeTree };

    ghost view = { λ t. t.tree.now };

    ghost invariant = { λ t. t.fields ≡ field_names t.tree.now };
}

/// The types of a file, in its order. They are found by their names.
#[derive(Drop)]
pub struct Declared<'a> {
    types: Vec<DeclaredType<'a>>,
    names: Places,
}

impl<'a> Model for Declared<'a> {
    ghost use Rattle.drl_grammar.specs.declared.file.TypeTree.{TypeTree};
    ghost use Rattle.std.specs.Prelude.{◌≡◌, List};
    ghost use Rattle.drl_scope.specs.Declarations.{type_names};

    ghost Value = { List TypeTree };

    ghost view = { λ d. d.types.items };

    ghost invariant = { λ d. d.names ≡ type_names d.types.items };
}

/// The names of the fields of a type.
pub fn names_of_fields(alloc: Global, tree: &TypeTree) -> Result<Vec<Text>, NoMemory>
    ensures { IfOk result (λ names. names.items ≡ field_names tree.now) }
{
    let mut names = Vec::with_capacity(alloc, tree.fields.as_slice().len())?;
    for field in tree.fields.as_slice() {
        names.push(field.0.copy(alloc)?)?;
    }
    Ok(names)
}

/// The kind that a word names.
#[tactic(auto, unfolding(crate::specs::Declarations::kind_by_word))]
pub fn kind_of_word(word: &Text) -> Option<Kind>
    ensures { result ≡ kind_by_word word.now }
{
    let word = word.as_str();
    if word == "int" || word == "long" || word == "Integer" || word == "Long" {
        Some(Kind::Int)
    } else if word == "boolean" || word == "Boolean" {
        Some(Kind::Bool)
    } else if word == "String" {
        Some(Kind::Text)
    } else {
        None
    }
}

impl<'a> DeclaredType<'a> {
    /// The declared type that a tree is.
    pub fn of(alloc: Global, tree: &'a TypeTree) -> Result<DeclaredType<'a>, NoMemory>
        ensures { IfOk result (λ t. t ≡ tree.now) }
    {
        let names = names_of_fields(alloc, tree)?;
        let fields = Places::of(alloc, &names)?;
        Ok(DeclaredType { tree, fields })
    }

    /// Its name.
    pub fn name(&self) -> &Text
        ensures { result.now ≡ self.now.name }
    {
        &self.tree.name
    }

    /// Whether it is a type of events.
    pub fn is_event(&self) -> bool
        ensures { result ≡ is_tree_of_events self.now }
    {
        is_event_tree(self.tree)
    }

    /// Whether it is a reference type.
    pub fn is_reference(&self) -> bool
        ensures { result ≡ reference_of self.now.metas }
    {
        is_reference_tree(self.tree)
    }

    /// The place of a field among the fields of the type.
    pub fn find(&self, field: &Text) -> Option<usize>
        ensures { result ≡ place_of_name (field_names self.now) field.now }
    {
        self.fields.find(field)
    }

    /// Whether the type has a field of this name.
    pub fn has(&self, field: &Text) -> bool
        ensures { result ≡ is_among (field_names self.now) field.now }
    {
        self.fields.holds(field)
    }

    /// The kind of the field of this name.
    pub fn kind_of(&self, field: &Text) -> Option<Kind>
        ensures { result ≡ field_kind self.now field.now }
    {
        match self.find(field) {
            Some(place) => self.kind_at(place),
            None => None,
        }
    }

    /// The kind of the field at a place.
    pub fn kind_at(&self, place: usize) -> Option<Kind>
        ensures { result ≡ kind_at self.now place }
    {
        match self.tree.fields.as_slice().get(place) {
            Some(field) => kind_of_word(&field.1),
            None => None,
        }
    }
}

impl<'a> Declared<'a> {
    /// The types that the items declare.
    pub fn of(alloc: Global, items: &'a [Item]) -> Result<Declared<'a>, NoMemory>
        ensures { IfOk result (λ d. d ≡ types_of items.now) }
    {
        let mut types = Vec::new(alloc);
        let mut names = Places::new(alloc);
        for item in items {
            match &item.body {
                Body::Declare(tree) => {
                    types.push(DeclaredType::of(alloc, tree)?)?;
                    names = names.with(alloc, &tree.name)?;
                }
                Body::Package(_)
                | Body::Import { .. }
                | Body::Dialect(_)
                | Body::Entry { .. }
                | Body::Rule(_) => {}
            }
        }
        Ok(Declared { types, names })
    }

    /// The type of this name.
    pub fn find(&self, name: &Text) -> Option<&DeclaredType<'a>>
        ensures { option_map (λ t. t.now) result ≡ type_tree_named self.now name.now }
    {
        match self.names.find(name) {
            Some(place) => self.types.get(place),
            None => None,
        }
    }

    /// The place of the type of this name.
    pub fn place(&self, name: &Text) -> Option<usize>
        ensures { result ≡ place_of_name (type_names self.now) name.now }
    {
        self.names.find(name)
    }
}
