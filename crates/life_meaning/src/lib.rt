//! What a life is: how long behind its end an event can still matter (Walzer, Breddin, Groch 2008; Drools Fusion 5 User Guide, memory management for
//! events): the networks of temporal tests, how far the solutions of a network reach, the lives of patterns and types, tables of lives, which of them are
//! safe to forget by, and which facts are kept by them. It has definitions and a law: what infers lives and what forgets events stands on it. It takes no
//! memory.
#![tactic(auto)]

ghost use Rattle.life_meaning.specs.Tables.{LivesAreSafe, EndlessAreSafe};

/// The table of a program's lives is safe to forget by, and so is the table in which every event lives for ever, unless its type has an
/// explicit expiry (`LifeTable::without`).
pub fn tables_are_safe()
    ensures lives { LivesAreSafe }
    ensures endless { EndlessAreSafe }
{}
