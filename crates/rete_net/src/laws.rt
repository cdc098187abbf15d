//! Laws of networks: each function's contract is the law, and its body is empty.
ghost use Rattle.std.specs.Prelude.{◌≡◌, Bool, length};
ghost use Rattle.fx_base.specs.Lists.{In};
ghost use Rattle.fx_base.specs.declared.fact.Fact.{Fact};
ghost use Rattle.row_delta.specs.declared.row.Named.{Named};
ghost use Rattle.row_delta.specs.declared.row.Row.{Row};
ghost use Rattle.row_delta.specs.Rows.{has};
ghost use Rattle.rule_model.specs.declared.program.Program.{Program};
ghost use Rattle.rule_model.specs.declared.program.Rule.{Rule};
ghost use Rattle.rule_model.specs.Distinct.{HaveDistinctTags};
ghost use Rattle.rule_model.specs.Snapshots.{Snapshot};
ghost use Rattle.rete_net.specs.declared.net.Rete.{Rete};
ghost use Rattle.rete_net.specs.Doors.{IsNetwork, rule_count};
ghost use Rattle.rete_net.specs.Forgetting.{IsUnmissed, snapshot_without};
ghost use Rattle.rete_net.specs.Nets.{NetStands, clean_rows};

/// A forgotten fact that no rule misses may go from the snapshot: the network as it is stands for what is left.
pub fn a_forgotten_fact_may_go()
    ensures { (p : Program) (net : Rete) (s : Snapshot) (forgotten : Named → Bool) (f : Fact) → NetStands p net s forgotten → IsUnmissed p s forgotten f
        → NetStands p net (snapshot_without s f) forgotten }
{}

/// And of its rows each rule keeps those that name no forgotten fact.
pub fn no_clean_row_misses_a_forgotten_fact()
    ensures { (p : Program) (s : Snapshot) (forgotten : Named → Bool) (f : Fact) → HaveDistinctTags s.facts → IsUnmissed p s forgotten f
        → (rule : Rule) → In rule p.rules → (row : Row) → has (clean_rows p (snapshot_without s f) forgotten rule) row ≡ has (clean_rows p s forgotten rule) row }
{}

/// A network that stands for a snapshot is that of its program, and a program's network answers the changes of each of its rules.
pub fn a_network_that_stands_is_its_programs()
    ensures network { (p : Program) (net : Rete) (s : Snapshot) (forgotten : Named → Bool) → NetStands p net s forgotten → IsNetwork p net }
    ensures rules { (p : Program) (net : Rete) → IsNetwork p net → rule_count net ≡ length p.rules }
{}
