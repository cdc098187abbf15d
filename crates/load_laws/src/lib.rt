//! A law of the load. It stands apart, since its proof computes what the rule file reads as. It takes no memory.
#![tactic(auto)]

ghost use Rattle.std.specs.Prelude.{◌≡◌, None, Ok};
ghost use Rattle.gen_load.specs.Rules.{rules_text};
ghost use Rattle.drl_grammar.specs.declared.written.Written.{Written};
ghost use Rattle.subrules.specs.Expanded.{expanded};
ghost use Rattle.subrules.specs.Faults.{obstacle};
ghost use Rattle.drl_parse.specs.Parsed.{parsed, is_file};
ghost use Rattle.drl_check.specs.Outcomes.{checked};
ghost use Rattle.rule_model.specs.declared.program.Program.{Program};

/// The rule file of a load is a file by the grammar that can be written out to one that passes all checks, and has a program.
pub fn the_rule_file_is_accepted()
    ensures { (file : Written) × (program : Program) × (parsed rules_text ≡ is_file file) × (obstacle file.items ≡ None)
        × (checked (record { items = expanded file.items }) ≡ Ok program) }
{}
