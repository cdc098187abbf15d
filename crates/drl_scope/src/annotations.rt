ghost use Rattle.std.specs.Prelude.{◌≡◌, option_map};
ghost use Rattle.drl_scope.specs.Annotations.{role_of, is_tree_of_events, timestamp_of, duration_field_of, declared_expiry, reference_of};

use drl_grammar::{Meta, TypeTree};
use fx_base::{Millis, Text};

/// Whether a type is one of events.
pub fn is_event_tree(tree: &TypeTree) -> bool
    ensures { result ≡ is_tree_of_events tree.now }
{
    for meta in tree.metas.as_slice() {
        match meta {
            Meta::Role(event) => return *event,
            Meta::Timestamp(_) | Meta::Duration(_) | Meta::Expires(_) | Meta::Reference => {}
        }
    }
    false
}

/// The field that holds the start of an event, as the annotations name it.
pub fn timestamp_field(tree: &TypeTree) -> Option<&Text>
    ensures { option_map (λ f. f.now) result ≡ timestamp_of tree.now.metas }
{
    for meta in tree.metas.as_slice() {
        match meta {
            Meta::Timestamp(field) => return Some(field),
            Meta::Role(_) | Meta::Duration(_) | Meta::Expires(_) | Meta::Reference => {}
        }
    }
    None
}

/// The field that holds the duration of an event, as the annotations name it.
pub fn duration_field(tree: &TypeTree) -> Option<&Text>
    ensures { option_map (λ f. f.now) result ≡ duration_field_of tree.now.metas }
{
    for meta in tree.metas.as_slice() {
        match meta {
            Meta::Duration(field) => return Some(field),
            Meta::Role(_) | Meta::Timestamp(_) | Meta::Expires(_) | Meta::Reference => {}
        }
    }
    None
}

/// How long behind its start an event is present, in milliseconds, as the annotations say.
pub fn expiry_offset(tree: &TypeTree) -> Option<Millis>
    ensures { result ≡ declared_expiry tree.now.metas }
{
    for meta in tree.metas.as_slice() {
        match meta {
            Meta::Expires(offset) => return Some(*offset),
            Meta::Role(_) | Meta::Timestamp(_) | Meta::Duration(_) | Meta::Reference => {}
        }
    }
    None
}

/// Whether a type is a reference type, as the annotations say: its facts are there before any event, and stay as they are.
pub fn is_reference_tree(tree: &TypeTree) -> bool
    ensures { result ≡ reference_of tree.now.metas }
{
    for meta in tree.metas.as_slice() {
        match meta {
            Meta::Reference => return true,
            Meta::Role(_) | Meta::Timestamp(_) | Meta::Duration(_) | Meta::Expires(_) => {}
        }
    }
    false
}
