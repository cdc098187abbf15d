//! Laws of subtypes and alternatives: each function's contract is the law, and its body is empty.
ghost use Rattle.std.specs.Prelude.{◌≡◌, ◌↔◌, ℕ, false, List, ◌∷◌, Contains, Some};
ghost use Rattle.std.specs.Bool.{Decides};
ghost use Rattle.std.specs.List.{filter};
ghost use Rattle.drl_lex.specs.declared.token.TokenKind.{TokenKind};
ghost use Rattle.drl_grammar.specs.declared.written.Piece.{Piece};
ghost use Rattle.drl_grammar.specs.declared.written.WrittenType.{WrittenType};
ghost use Rattle.drl_grammar.specs.Conditions.{AreAll};
ghost use Rattle.subrules.specs.Hierarchy.{IsAbove, first_names, written_type_named, above, goes_round, is_below, is_subtype, kinds_of};
ghost use Rattle.subrules.specs.Nesting.{AllHave};
ghost use Rattle.subrules.specs.Ways.{Way, ways_of};

/// What a rule of the grammar asks for can be met in the ways that the nesting of its alternatives says, and the walk over its pieces,
/// by which rules are written out, finds these and no others.
pub fn ways_are_those_of_the_nesting()
    ensures walk { (types : List WrittenType) (pieces : List Piece) (ways : List Way) → AllHave types pieces ways → ways_of types pieces ≡ ways }
    ensures each { (types : List WrittenType) (depth : ℕ) (pieces : List Piece) (ts : List TokenKind) (rest : List TokenKind) → AreAll depth pieces ts rest
        → (ways : List Way) × AllHave types pieces ways }
{}

/// A type goes round exactly where a type above it is above itself. Of a type that does not, all types above it are found. The kinds of a
/// type are its name and the names of all other types below it.
pub fn types_above_are_found()
    ensures round { (types : List WrittenType) (t : WrittenType) → Decides (goes_round types t) ((u : WrittenType) × IsAbove types u t × IsAbove types u u) }
    ensures listed { (types : List WrittenType) (t : WrittenType) (u : WrittenType) → goes_round types t ≡ false → Contains (above types t) u ↔ IsAbove types u t }
    ensures below { (types : List WrittenType) (over : List ℕ) (name : List ℕ) (t : WrittenType) → written_type_named types name ≡ Some t → goes_round types t ≡ false
        → Decides (is_below types over name) ((u : WrittenType) × IsAbove types u t × (u.name ≡ over)) }
    ensures kinds { (types : List WrittenType) (name : List ℕ) → kinds_of types name ≡ name ∷ filter (is_subtype types name) (first_names types) }
{}
