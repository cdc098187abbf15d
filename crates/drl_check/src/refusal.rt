ghost use Rattle.std.specs.Prelude.{◌≡◌, ◌<◌, ◌+◌, ◌^◌, ◌++◌, [], List, ℕ, IfOk};
ghost use Rattle.drl_scope.specs.Declarations.{types_of, type_in, rule_in, type_names, rule_names};
ghost use Rattle.drl_scope.specs.Observed.{is_event_among, watched_names};
ghost use Rattle.drl_scope.specs.EntryPoints.{entries_declared, entries_named, with_names};
ghost use Rattle.drl_check.specs.Checks.{lacks_type, lacks_field as lacks_field_of, lacks_variable as lacks_variable_of, is_wrong_kind, needs_event, needs_whole_times, has_bad_reference, fixes_event, drops_observed, changes_reference, has_bad_params, failure_from};
ghost use Rattle.drl_check.specs.Failing.{first_failing, first_failing_event, first_failing_use};
ghost use Rattle.drl_check.specs.Answers.{within_32_bits, Judges};
ghost use Rattle.drl_check.specs.Solvable.{never_matches_alone, HasFewConditions, HasNetwork};
ghost use Rattle.drl_compile.specs.Programs.{types_alone};

use crate::events::{
    fixes_some_reference, is_marked_event, is_plain_with_times, lacks_annotated, misfits_annotated,
    modifies_some_event, retracts_some_observed,
};
use crate::params::{does_expire_at_once, does_some_condition_refuse, is_below_zero};
use crate::twice::repeats;
use crate::whole::Whole;
use crate::{CheckCode, CheckFault};
use drl_compile::conditions_alone;
use drl_grammar::{Body, Item};
use drl_limits::exceeds_limits;
use drl_scope::{Declared, Places, default_entry, with_entries};
use drl_typing::{Asked, Kinded, insert_unknown, is_so_in_rule, lack_times, lack_type, lacks_kind};
use expiry_infer::is_solvable;
use fx_base::NoMemory;
use std::alloc::Global;

fn is_type_missing(types: &Declared, body: &Body) -> bool
    ensures { result ≡ lacks_type types.now body.now }
{
    match body {
        Body::Rule(tree) => {
            lack_type(types, tree.conditions.as_slice())
                || insert_unknown(types, tree.actions.as_slice())
        }
        Body::Package(_)
        | Body::Import { .. }
        | Body::Dialect(_)
        | Body::Declare(_)
        | Body::Entry { .. } => false,
    }
}

fn is_field_missing(alloc: Global, types: &Kinded, body: &Body) -> Result<bool, NoMemory>
    ensures { IfOk result (λ missing. missing ≡ lacks_field_of types.now body.now) }
{
    match body {
        Body::Declare(tree) => lacks_annotated(alloc, tree),
        Body::Rule(tree) => is_so_in_rule(alloc, Asked::LacksField, types, tree),
        Body::Package(_) | Body::Import { .. } | Body::Dialect(_) | Body::Entry { .. } => Ok(false),
    }
}

fn is_variable_missing(alloc: Global, types: &Kinded, body: &Body) -> Result<bool, NoMemory>
    ensures { IfOk result (λ missing. missing ≡ lacks_variable_of types.now body.now) }
{
    match body {
        Body::Rule(tree) => is_so_in_rule(alloc, Asked::LacksVariable, types, tree),
        Body::Package(_)
        | Body::Import { .. }
        | Body::Dialect(_)
        | Body::Declare(_)
        | Body::Entry { .. } => Ok(false),
    }
}

fn is_kind_wrong(alloc: Global, types: &Kinded, body: &Body) -> Result<bool, NoMemory>
    ensures { IfOk result (λ wrong. wrong ≡ is_wrong_kind types.now body.now) }
{
    match body {
        Body::Declare(tree) => Ok(lacks_kind(tree)),
        Body::Rule(tree) => is_so_in_rule(alloc, Asked::HasWrongKind, types, tree),
        Body::Package(_) | Body::Import { .. } | Body::Dialect(_) | Body::Entry { .. } => Ok(false),
    }
}

fn is_event_missing(alloc: Global, types: &Declared, body: &Body) -> Result<bool, NoMemory>
    ensures { IfOk result (λ missing. missing ≡ needs_event types.now body.now) }
{
    match body {
        Body::Declare(tree) => Ok(is_plain_with_times(tree)),
        Body::Rule(tree) => lack_times(alloc, types, tree.conditions.as_slice()),
        Body::Package(_) | Body::Import { .. } | Body::Dialect(_) | Body::Entry { .. } => Ok(false),
    }
}

fn is_timestamp_bad(alloc: Global, body: &Body) -> Result<bool, NoMemory>
    ensures { IfOk result (λ bad. bad ≡ needs_whole_times body.now) }
{
    match body {
        Body::Declare(tree) => misfits_annotated(alloc, tree),
        Body::Package(_)
        | Body::Import { .. }
        | Body::Dialect(_)
        | Body::Entry { .. }
        | Body::Rule(_) => Ok(false),
    }
}

fn is_reference_bad(body: &Body) -> bool
    ensures { result ≡ has_bad_reference body.now }
{
    match body {
        Body::Declare(tree) => is_marked_event(tree),
        Body::Package(_)
        | Body::Import { .. }
        | Body::Dialect(_)
        | Body::Entry { .. }
        | Body::Rule(_) => false,
    }
}

fn is_event_modified(alloc: Global, types: &Declared, body: &Body) -> Result<bool, NoMemory>
    ensures { IfOk result (λ modified. modified ≡ fixes_event types.now body.now) }
{
    match body {
        Body::Rule(tree) => modifies_some_event(alloc, types, tree),
        Body::Package(_)
        | Body::Import { .. }
        | Body::Dialect(_)
        | Body::Declare(_)
        | Body::Entry { .. } => Ok(false),
    }
}

fn is_observed_retracted(alloc: Global, whole: &Whole, body: &Body) -> Result<bool, NoMemory>
    ensures { IfOk result (λ retracted. retracted ≡ drops_observed (is_event_among whole.now.watched) whole.now.types body.now) }
{
    match body {
        Body::Rule(tree) => {
            retracts_some_observed(alloc, whole.types.declared(), &whole.watched, tree)
        },
        Body::Package(_)
        | Body::Import { .. }
        | Body::Dialect(_)
        | Body::Declare(_)
        | Body::Entry { .. } => Ok(false),
    }
}

fn is_reference_changed(alloc: Global, types: &Declared, body: &Body) -> Result<bool, NoMemory>
    ensures { IfOk result (λ changed. changed ≡ changes_reference types.now body.now) }
{
    match body {
        Body::Rule(tree) => fixes_some_reference(alloc, types, tree),
        Body::Package(_)
        | Body::Import { .. }
        | Body::Dialect(_)
        | Body::Declare(_)
        | Body::Entry { .. } => Ok(false),
    }
}

fn are_params_bad(body: &Body) -> bool
    ensures { result ≡ has_bad_params body.now }
{
    match body {
        Body::Entry { lateness, .. } => is_below_zero(*lateness),
        Body::Declare(tree) => does_expire_at_once(tree),
        Body::Rule(tree) => does_some_condition_refuse(tree.conditions.as_slice()),
        Body::Package(_) | Body::Import { .. } | Body::Dialect(_) => false,
    }
}

// Whether no events can match the patterns of a rule that bind events.
fn is_unmatchable(alloc: Global, whole: &Whole, body: &Body) -> Result<bool, NoMemory>
    requires { HasNetwork whole.now.types body.now }
    ensures { IfOk result (λ never. never ≡ never_matches_alone whole.now.alone whole.now.types body.now) }
{
    match body {
        Body::Rule(tree) => {
            let trees = tree.conditions.as_slice();
            let conditions = conditions_alone(alloc, whole.types.declared(), trees)?;
            let solvable = is_solvable(alloc, &whole.alone, conditions.as_slice())?;
            Ok(!solvable)
        }
        Body::Package(_)
        | Body::Import { .. }
        | Body::Dialect(_)
        | Body::Declare(_)
        | Body::Entry { .. } => Ok(false),
    }
}

// The first code that an item fails, which looks at events.
fn failing_event(alloc: Global, whole: &Whole, body: &Body) -> Result<Option<CheckCode>, NoMemory>
    requires { HasNetwork whole.now.types body.now }
    ensures { IfOk result (λ code. code ≡ first_failing_event whole.now.alone whole.now.types whole.now.watched body.now) }
{
    if is_event_missing(alloc, whole.types.declared(), body)? {
        return Ok(Some(CheckCode::NotAnEvent));
    }
    if is_timestamp_bad(alloc, body)? {
        return Ok(Some(CheckCode::BadTimestamp));
    }
    if is_reference_bad(body) {
        return Ok(Some(CheckCode::BadReference));
    }
    if is_event_modified(alloc, whole.types.declared(), body)? {
        return Ok(Some(CheckCode::EventFixed));
    }
    if is_observed_retracted(alloc, whole, body)? {
        return Ok(Some(CheckCode::EventObserved));
    }
    if is_reference_changed(alloc, whole.types.declared(), body)? {
        return Ok(Some(CheckCode::ReferenceFixed));
    }
    if are_params_bad(body) {
        return Ok(Some(CheckCode::BadParams));
    }
    if is_unmatchable(alloc, whole, body)? {
        return Ok(Some(CheckCode::NeverMatches));
    }
    Ok(None)
}

// The first code that an item fails, which looks into annotations, conditions and actions.
fn failing_use(alloc: Global, whole: &Whole, body: &Body) -> Result<Option<CheckCode>, NoMemory>
    requires { HasFewConditions body.now }
    ensures { IfOk result (λ code. code ≡ first_failing_use whole.now.alone whole.now.types whole.now.watched body.now) }
{
    if is_type_missing(whole.types.declared(), body) {
        return Ok(Some(CheckCode::UnknownType));
    }
    if is_field_missing(alloc, &whole.types, body)? {
        return Ok(Some(CheckCode::UnknownField));
    }
    if is_variable_missing(alloc, &whole.types, body)? {
        return Ok(Some(CheckCode::UnknownVariable));
    }
    if is_kind_wrong(alloc, &whole.types, body)? {
        return Ok(Some(CheckCode::WrongKind));
    }
    failing_event(alloc, whole, body)
}

// The first code that an item fails, behind items that declare types, entry points and rules of these names; `known` are the
// entry points known behind it. The limits are tried before the uses, so that these walk few variables.
fn failing(
    alloc: Global,
    whole: &Whole,
    earlier_types: &Places,
    earlier_entries: &Places,
    earlier_rules: &Places,
    known: &Places,
    body: &Body,
) -> Result<Option<CheckCode>, NoMemory>
    requires { (before : List (List ℕ)) × (known.now ≡ with_names before (entries_named body.now)) }
    ensures { (before : List (List ℕ)) → known.now ≡ with_names before (entries_named body.now)
        → IfOk result (λ code. code ≡ first_failing whole.now.alone whole.now.types whole.now.watched earlier_types.now earlier_entries.now earlier_rules.now before body.now) }
{
    if repeats(alloc, earlier_types, earlier_entries, earlier_rules, body)? {
        return Ok(Some(CheckCode::TwiceDeclared));
    }
    if exceeds_limits(earlier_types.len(), known.len(), earlier_rules.len(), body) {
        return Ok(Some(CheckCode::LimitPassed));
    }
    failing_use(alloc, whole, body)
}

/// The names that the items before one declare.
#[derive(Drop)]
struct Earlier {
    types: Places,
    entries: Places,
    rules: Places,
}

impl Earlier {
    fn none(alloc: Global) -> Earlier
        ensures types { result.types ≡ [] }
        ensures entries { result.entries ≡ [] }
        ensures rules { result.rules ≡ [] }
    {
        Earlier {
            types: Places::new(alloc),
            entries: Places::new(alloc),
            rules: Places::new(alloc),
        }
    }

    // With what one item more declares.
    fn with(self, alloc: Global, body: &Body) -> Result<Earlier, NoMemory>
        ensures types { IfOk result (λ more. more.types ≡ self.types ++ type_names (type_in body.now)) }
        ensures entries { IfOk result (λ more. more.entries ≡ self.entries ++ entries_declared body.now) }
        ensures rules { IfOk result (λ more. more.rules ≡ self.rules ++ rule_names (rule_in body.now)) }
    {
        match body {
            Body::Declare(tree) => Ok(Earlier {
                types: self.types.with(alloc, &tree.name)?,
                ..self
            }),
            Body::Entry { name, .. } => Ok(Earlier {
                entries: self.entries.with(alloc, name)?,
                ..self
            }),
            Body::Rule(tree) => Ok(Earlier {
                rules: self.rules.with(alloc, &tree.name)?,
                ..self
            }),
            Body::Package(_) | Body::Import { .. } | Body::Dialect(_) => Ok(self),
        }
    }
}

// The number of the item at a place, counted from 1. It stands still at 2^32 - 1.
fn number_of(place: usize) -> u32
    requires { place < 2 ^ 63 }
    ensures { result ≡ within_32_bits (place + 1) }
{
    (place + 1).min(4_294_967_295) as u32
}

/// The first failure of the items of a file, of which this is said as a whole.
pub(crate) fn refusal(alloc: Global, whole: &Whole, items: &[Item]) -> Result<(), CheckFault>
    requires types { whole.now.types ≡ types_of items.now }
    requires watched { whole.now.watched ≡ watched_names items.now }
    requires alone { whole.now.alone ≡ types_alone (types_of items.now) }
    ensures { Judges result (failure_from items.now [] items.now) }
{
    let mut earlier = Earlier::none(alloc);
    let mut known = default_entry(alloc)?;
    for (place, item) in items.iter().enumerate() {
        known = with_entries(alloc, known, &item.body)?;
        match failing(
            alloc,
            whole,
            &earlier.types,
            &earlier.entries,
            &earlier.rules,
            &known,
            &item.body,
        )? {
            Some(code) => {
                return Err(CheckFault::Refused {
                    item: number_of(place),
                    line: item.line,
                    code,
                });
            }
            None => {}
        }
        earlier = earlier.with(alloc, &item.body)?;
    }
    Ok(())
}
