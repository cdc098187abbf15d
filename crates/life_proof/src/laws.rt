//! Laws of certificates: each function's contract is the law, and its body is empty.
ghost use Rattle.std.specs.Prelude.{◌↔◌};
ghost use Rattle.fx_base.specs.Lists.{In};
ghost use Rattle.rule_model.specs.declared.life.LifeTable.{LifeTable};
ghost use Rattle.rule_model.specs.declared.program.Program.{Program};
ghost use Rattle.life_proof.specs.declared.part.Asked.{Asked};
ghost use Rattle.life_proof.specs.Asked.{asked, IsReachAsked};
ghost use Rattle.life_proof.specs.Laws.{BoundsHold, GoodIsSafe, LivesSuffice};

/// What a certificate is asked for is listed, all of it and nothing else.
pub fn what_is_asked_is_listed()
    ensures { (p : Program) (table : LifeTable) (a : Asked) → In a (asked p table) ↔ IsReachAsked p table a }
{}

/// Where a certificate is good, each solution of the network of two conditions that it has a part for keeps the bound that the life
/// rests on. So the finite lives of the table are at least those of the patterns, and the table is safe to forget by.
pub fn good_certificates_bound_lives()
    ensures bounds { BoundsHold }
    ensures lives { LivesSuffice }
    ensures safe { GoodIsSafe }
{}
