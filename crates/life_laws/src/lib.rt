//! The laws that inferred lives are long enough, and that what a step makes names only what is kept by them (Walzer, Breddin, Groch 2008; Drools Fusion 5
//! User Guide, memory management for events). It has these laws alone. It takes no memory.
#![tactic(auto)]

ghost use Rattle.life_laws.specs.Law.{OfRule, OfPrefix};
ghost use Rattle.life_laws.specs.Keeping.{TupleNamesKept, MatchNamesKept, TupleMeetsKept, KeptBefore};

/// The events of what comes or goes in a step are within their lives: those of a tuple of a whole rule, and those that pass for a
/// condition which binds no fact, where a tuple of the conditions before it comes or goes.
pub fn change_law()
    ensures of_rule { OfRule }
    ensures of_prefix { OfPrefix }
{}

/// What comes in a step names only what a safe table keeps: a tuple of a whole rule, a match, and what passes for a condition which binds no fact,
/// where a tuple of the conditions before it comes. What is kept behind a step and was a fact before it was kept before it.
pub fn what_comes_is_kept()
    ensures tuples { TupleNamesKept }
    ensures matches { MatchNamesKept }
    ensures meets { TupleMeetsKept }
    ensures before { KeptBefore }
{}
