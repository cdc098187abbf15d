//! Laws of nodes: each function's contract is the law, and its body is empty.
ghost use Rattle.std.specs.Prelude.{◌≡◌, ◌<◌, Bool, Option, Some};
ghost use Rattle.row_delta.specs.declared.extra.Extra.{Extra};
ghost use Rattle.row_delta.specs.declared.row.Named.{Named};
ghost use Rattle.row_delta.specs.declared.row.Row.{Row};
ghost use Rattle.rule_model.specs.declared.program.Program.{Program};
ghost use Rattle.rule_model.specs.Distinct.{HaveDistinctTags};
ghost use Rattle.rule_model.specs.Snapshots.{Snapshot};
ghost use Rattle.join_tests.specs.Joins.{Look};
ghost use Rattle.join_memory.specs.Standing.{no_names};
ghost use Rattle.condition_rows.specs.Looks.{HasAllOf, NameHeld};
ghost use Rattle.condition_rows.specs.Sets.{held};
ghost use Rattle.laden_rows.specs.Laden.{laden_line};
ghost use Rattle.beta_node.specs.declared.node.Node.{Node};
ghost use Rattle.beta_node.specs.Loading.{Laden, ResumesLaw, node_rows};
ghost use Rattle.beta_node.specs.Nodes.{NodeStands, condition_of};

/// A node depends on the versions of its snapshot alone: in another store that has them too it stands for the same.
pub fn a_node_looks_at_its_snapshot_alone()
    ensures { (p : Program) (node : Node) (look other : Look) (s : Snapshot) (rows : Row → Bool) (forgotten : Named → Bool)
        → HasAllOf look s forgotten → HasAllOf other s forgotten → NameHeld s rows
        → NodeStands p node look s rows forgotten → NodeStands p node other s rows forgotten }
{}

/// A node that is loaded with what is kept, and with extras of what is forgotten, stands for both.
pub fn what_is_loaded_stands_for_what_is_forgotten()
    ensures { ResumesLaw }
{}

/// The rows of a node that is loaded with what is kept, and with extras that count something, are what the line of its condition makes of
/// the rows before it, with what the extras count.
pub fn a_loaded_node_has_the_rows_of_its_line()
    ensures { (p : Program) (n : Node) (look : Look) (t : Snapshot) (rows : Row → Bool) (extra : Row → Option Extra)
        → HaveDistinctTags t.facts → HasAllOf look t no_names → NameHeld t rows → ((row : Row) (e : Extra) → extra row ≡ Some e → 0 < e.count)
        → Laden p n look (held t) t rows extra → (row : Row) → node_rows p look n row ≡ laden_line p t extra (condition_of n) rows row }
{}
