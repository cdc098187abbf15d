ghost use Rattle.std.specs.Prelude.{◌≡◌, ◌↔◌, false, not, List, Some, None};
ghost use Rattle.std.specs.Bool.{Decides};
ghost use Rattle.drl_grammar.specs.declared.file.File.{File};
ghost use Rattle.drl_grammar.specs.declared.file.Body.TheVariants as body;
ghost use Rattle.drl_grammar.specs.declared.file.Item.{Item};
ghost use Rattle.drl_grammar.specs.declared.file.RuleTree.{RuleTree};
ghost use Rattle.life_meaning.specs.Networks.{AreSolvable};
ghost use Rattle.drl_scope.specs.Declarations.{types_of};
ghost use Rattle.drl_scope.specs.EntryPoints.{entry_names};
ghost use Rattle.drl_compile.specs.Programs.{program_of, rule_of};
ghost use Rattle.drl_check.specs.declared.fault.CheckCode.TheVariants.{LimitPassed, UnknownType, UnknownVariable, WrongKind, NeverMatches};
ghost use Rattle.drl_check.specs.Checks.{fails, Failure, failure_of, IsAcceptedFile, IsFirstFailure};

/// A file has no failure exactly where it is accepted, and this failure exactly where it is the first.
pub fn failures_are_exact()
    ensures none { (file : File) → failure_of file ≡ None ↔ IsAcceptedFile file }
    ensures some { (file : File) (f : Failure) → failure_of file ≡ Some f ↔ IsFirstFailure file f.number f.line f.code }
{}

/// At most one failure is the first.
pub fn one_failure_is_first()
    ensures { (file : File) (f : Failure) (g : Failure) → IsFirstFailure file f.number f.line f.code
        → IsFirstFailure file g.number g.line g.code → f ≡ g }
{}

/// A rule within the limits that names declared types, variables in sight and facts where facts are needed passes `NeverMatches`
/// exactly where some events can be a match of its patterns that bind events, as far as their temporal tests say.
pub fn rules_that_never_match_are_found()
    ensures { (all : List Item) (before : List Item) (r : RuleTree) → fails LimitPassed all before (body.Rule r) ≡ false → fails UnknownType all before (body.Rule r) ≡ false
        → fails UnknownVariable all before (body.Rule r) ≡ false → fails WrongKind all before (body.Rule r) ≡ false
        → Decides (not (fails NeverMatches all before (body.Rule r))) (AreSolvable (program_of (record { items = all })) (rule_of (types_of all) (entry_names all) r).conditions) }
{}
