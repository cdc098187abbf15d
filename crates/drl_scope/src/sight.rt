ghost use Rattle.std.specs.Prelude.{◌≡◌, ◌<◌, ◌≤◌, ◌+◌, ◌^◌, ◌++◌, Some, option_map, IfOk, OnOk};
ghost use Rattle.std.specs.List.{list_any};
ghost use Rattle.drl_scope.specs.Sight.{meaning_of, seen_of, seen_in, seen_fact, seen_result, begin, behind, is_own, is_bound_in, is_bound_by};
ghost use Rattle.drl_scope.specs.Declarations.{type_tree_named};
ghost use Rattle.drl_scope.specs.Meanings.{lacks_for, variable_kind, variable_field_kind};
ghost use Rattle.drl_scope.specs.Shown.{meant};

use crate::declared::{Declared, DeclaredType};
use drl_grammar::{CondTree, Part, SourceTree};
use fx_base::{Copies, Kind, NoMemory, Text};
use std::alloc::Global;
use std::marker::Model;

/// What a variable stands for. Facts count from 0 in the order of the rule's positive patterns, results in the order of its
/// accumulates.
#[derive(Clone, Copy)]
pub enum Seen<'a, 'b> {
    Fact {
        fact: usize,
        ty: &'a DeclaredType<'b>,
    },
    /// A field of a fact, by its place. A field whose kind word is none of the seven has no kind.
    Field {
        fact: usize,
        field: usize,
        kind: Option<Kind>,
    },
    /// The result of an accumulate, a whole number.
    Result {
        result: usize,
    },
}

/// What a variable means.
#[derive(Drop)]
pub struct Meaning<'a, 'b> {
    seen: Seen<'a, 'b>,
}

impl<'a, 'b> Model for Meaning<'a, 'b> {
    ghost use Rattle.drl_scope.specs.Sight.{Meaning};
    ghost use Rattle.drl_scope.specs.Shown.{meant};

    ghost Value = { Meaning };

    ghost view = { λ m. meant m.seen };
}

/// The variables in sight behind some conditions of a rule, and the numbers of the next fact and of the next result.
#[derive(Drop)]
pub struct Place<'a, 'b> {
    seen: Vec<(Text, Meaning<'a, 'b>)>,
    facts: usize,
    results: usize,
}

impl<'a, 'b> Model for Place<'a, 'b> {
    ghost use Rattle.drl_scope.specs.Sight.{Place};

    ghost Value = { Place };

    ghost view = { λ p. record { sight = p.seen.items; facts = p.facts; results = p.results } };
}

impl<'a, 'b> Meaning<'a, 'b> {
    /// What it is.
    pub fn seen(&self) -> Seen<'a, 'b>
        ensures { meant result ≡ self.now }
    {
        self.seen
    }

    /// Whether it is a fact whose type has no field of this name.
    pub fn lacks(&self, field: &Text) -> bool
        ensures { result ≡ lacks_for (Some self.now) field.now }
    {
        match self.seen {
            Seen::Fact { fact: _, ty } => !ty.has(field),
            Seen::Field { .. } => false,
            Seen::Result { .. } => false,
        }
    }

    /// The kind of its value, where it is one.
    pub fn kind(&self) -> Option<Option<Kind>>
        ensures { result ≡ variable_kind (Some self.now) }
    {
        match self.seen {
            Seen::Fact { .. } => None,
            Seen::Field { kind, .. } => Some(kind),
            Seen::Result { .. } => Some(Some(Kind::Int)),
        }
    }

    /// The kind of a field of it, where it is a fact.
    pub fn kind_of(&self, field: &Text) -> Option<Option<Kind>>
        ensures { result ≡ variable_field_kind (Some self.now) field.now }
    {
        match self.seen {
            Seen::Fact { fact: _, ty } => Some(ty.kind_of(field)),
            Seen::Field { .. } => None,
            Seen::Result { .. } => None,
        }
    }
}

// Adds the variable of a pattern's fact.
fn see_fact<'a, 'b>(
    alloc: Global,
    seen: &mut Vec<(Text, Meaning<'a, 'b>)>,
    fact: usize,
    ty: &'a DeclaredType<'b>,
    var: &Option<Text>,
) -> Result<(), NoMemory>
    ensures { OnOk result (seen.new.items ≡ seen.old.items ++ seen_fact fact ty.now var.now) }
{
    match var {
        Some(name) => {
            let meaning = Meaning {
                seen: Seen::Fact { fact, ty },
            };
            seen.push((name.copy(alloc)?, meaning))?;
            Ok(())
        }
        None => Ok(()),
    }
}

// Adds the variable that a part binds, if it binds one to a field of the type.
fn see_field<'a, 'b>(
    alloc: Global,
    seen: &mut Vec<(Text, Meaning<'a, 'b>)>,
    fact: usize,
    ty: &'a DeclaredType<'b>,
    part: &Part,
) -> Result<(), NoMemory>
    ensures { OnOk result (seen.new.items ≡ seen.old.items ++ seen_in fact ty.now part.now) }
{
    match part {
        Part::Bind { var, field } => match ty.find(field) {
            Some(place) => {
                let meaning = Meaning {
                    seen: Seen::Field {
                        fact,
                        field: place,
                        kind: ty.kind_at(place),
                    },
                };
                seen.push((var.copy(alloc)?, meaning))?;
                Ok(())
            }
            None => Ok(()),
        },
        Part::Temporal { .. } | Part::AnyOf(_) => Ok(()),
    }
}

// Adds the variable of an accumulate's result.
fn see_result<'a, 'b>(
    alloc: Global,
    seen: &mut Vec<(Text, Meaning<'a, 'b>)>,
    number: usize,
    var: &Option<Text>,
) -> Result<(), NoMemory>
    ensures { OnOk result (seen.new.items ≡ seen.old.items ++ seen_result number var.now) }
{
    match var {
        Some(name) => {
            let meaning = Meaning {
                seen: Seen::Result { result: number },
            };
            seen.push((name.copy(alloc)?, meaning))?;
            Ok(())
        }
        None => Ok(()),
    }
}

// Adds what a pattern brings into sight.
fn see_pattern<'a, 'b>(
    alloc: Global,
    seen: &mut Vec<(Text, Meaning<'a, 'b>)>,
    fact: usize,
    ty: &'a DeclaredType<'b>,
    source: &SourceTree,
) -> Result<(), NoMemory>
    ensures { OnOk result (seen.new.items ≡ seen.old.items ++ seen_of fact source.now (Some ty.now)) }
{
    see_fact(alloc, seen, fact, ty, &source.var)?;
    for part in source.parts.as_slice() {
        see_field(alloc, seen, fact, ty, part)?;
    }
    Ok(())
}

impl<'a, 'b> Place<'a, 'b> {
    /// Before the first condition.
    pub fn begin(alloc: Global) -> Place<'a, 'b>
        ensures { result ≡ begin }
    {
        Place {
            seen: Vec::new(alloc),
            facts: 0,
            results: 0,
        }
    }

    /// What a variable means. It walks the variables in sight: a rule within the limits has at most 264.
    #[tactic(auto, unfolding(crate::specs::Sight::meaning_of))]
    pub fn find(&self, name: &Text) -> Option<&Meaning<'a, 'b>>
        ensures { option_map (λ m. m.now) result ≡ meaning_of self.now.sight name.now }
    {
        for seen in &self.seen {
            if seen.0 == *name {
                return Some(&seen.1);
            }
        }
        None
    }

    // Behind a positive pattern.
    fn behind_pattern(
        self,
        alloc: Global,
        types: &'a Declared<'b>,
        source: &SourceTree,
    ) -> Result<Place<'a, 'b>, NoMemory>
        requires { self.facts < 2 ^ 63 }
        ensures { IfOk result (λ p. p ≡ record { sight = self.entry.sight ++ seen_of self.entry.facts source.now (type_tree_named types.now source.now.ty); facts = self.entry.facts + 1; results = self.entry.results }) }
    {
        let Place {
            mut seen,
            facts,
            results,
        } = self;
        match types.find(&source.ty) {
            Some(ty) => see_pattern(alloc, &mut seen, facts, ty, source)?,
            None => {}
        }
        Ok(Place {
            seen,
            facts: facts + 1,
            results,
        })
    }

    // Behind an accumulate.
    fn behind_result(self, alloc: Global, var: &Option<Text>) -> Result<Place<'a, 'b>, NoMemory>
        requires { self.results < 2 ^ 63 }
        ensures { IfOk result (λ p. p ≡ record { sight = self.entry.sight ++ seen_result self.entry.results var.now; facts = self.entry.facts; results = self.entry.results + 1 }) }
    {
        let Place {
            mut seen,
            facts,
            results,
        } = self;
        see_result(alloc, &mut seen, results, var)?;
        Ok(Place {
            seen,
            facts,
            results: results + 1,
        })
    }

    /// Behind one more condition. What is bound inside not, exists and accumulate is in sight nowhere else.
    pub fn behind(
        self,
        alloc: Global,
        types: &'a Declared<'b>,
        condition: &CondTree,
    ) -> Result<Place<'a, 'b>, NoMemory>
        requires { self.facts + self.results < 2 ^ 63 }
        ensures { IfOk result (λ p. p ≡ behind types.now self.entry condition.now) }
    {
        match condition {
            CondTree::Plain(source) => self.behind_pattern(alloc, types, source),
            CondTree::Negated(_) | CondTree::Existing(_) => Ok(self),
            CondTree::Folded { result, .. } => self.behind_result(alloc, result),
        }
    }
}

// ---- inside a condition

fn is_own_of(var: &Option<Text>, name: &Text) -> bool
    ensures { result ≡ is_own var.now name.now }
{
    match var {
        Some(own) => *own == *name,
        None => false,
    }
}

fn binds_in(name: &Text, part: &Part) -> bool
    ensures { result ≡ is_bound_in name.now part.now }
{
    match part {
        Part::Bind { var, .. } => *var == *name,
        Part::Temporal { .. } | Part::AnyOf(_) => false,
    }
}

fn binds_in_some(name: &Text, parts: &[Part]) -> bool
    ensures { result ≡ list_any (is_bound_in name.now) parts.now }
{
    parts.iter().any(|part| binds_in(name, part))
}

/// Whether a pattern binds a variable, to its fact or to one of its fields. The argument of an accumulate sees these of its
/// own pattern alone.
pub fn binds(source: &SourceTree, name: &Text) -> bool
    ensures { result ≡ is_bound_by source.now name.now }
{
    is_own_of(&source.var, name) || binds_in_some(name, source.parts.as_slice())
}
