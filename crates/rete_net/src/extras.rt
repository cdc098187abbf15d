ghost use Rattle.std.specs.Prelude.{◌≡◌, ℕ, Bool, Option, Some, option_map, slice_get, IfOk};
ghost use Rattle.row_delta.specs.declared.row.Named.{Named as NamedData};
ghost use Rattle.row_delta.specs.declared.row.Row.{Row as RowData};
ghost use Rattle.rule_model.specs.declared.program.Program.{Program as ProgramData};
ghost use Rattle.rule_model.specs.Distinct.{HaveDistinctTags};
ghost use Rattle.rule_model.specs.Snapshots.{Snapshot};
ghost use Rattle.condition_rows.specs.Looks.{HasAllOf, NameHeld};
ghost use Rattle.candidate_source.specs.Doors.{source_candidates};
ghost use Rattle.candidate_source.specs.Sources.{source_at};
ghost use Rattle.beta_node.specs.Lending.{lent_to};
ghost use Rattle.beta_node.specs.Loading.{AreExtrasBeside};
ghost use Rattle.beta_node.specs.Nodes.{condition_of, NodeStands};
ghost use Rattle.laden_rows.specs.Extras.{AreExtras};
ghost use Rattle.rete_net.specs.declared.build.Owner.{Owner as OwnerData};
ghost use Rattle.rete_net.specs.declared.node.NetNode.{NetNode as NetNodeData};
ghost use Rattle.rete_net.specs.Fans.{showing, Member};
ghost use Rattle.rete_net.specs.Nets.{NetStands};

use crate::net::Rete;
use candidate_source::Sources;
use fx_base::{Facts, NoMemory};
use join_memory::Candidates;
use row_delta::Extra;
use std::alloc::Global;

impl Rete {
    /// What the conditions that bind no fact count or gather of forgotten facts, beside rows that name none, by rule, condition and row.
    /// `facts` has the facts that are not forgotten. It costs, for each row that such a node keeps, the tally of its candidates.
    pub fn extras<F: Facts>(&self, alloc: Global, facts: &F) -> Result<Vec<Extra>, NoMemory>
        ensures { IfOk result (λ extras. (p : ProgramData) (s : Snapshot) (forgotten : NamedData → Bool) → NetStands p self.now s forgotten → HasAllOf (F.map facts.now) s forgotten
            → AreExtras p s forgotten extras.items) }
    {
        let mut all = Vec::new(alloc);
        for place in 0..self.nodes.len() {
            let mut extras = self.extras_at(alloc, place, facts)?;
            all.append(&mut extras)?;
        }
        Ok(all)
    }

    // What the node in a place counts and gathers so, under its owner, over the candidates of its source, if it is of one.
    fn extras_at<F: Facts>(
        &self,
        alloc: Global,
        place: usize,
        facts: &F,
    ) -> Result<Vec<Extra>, NoMemory>
        ensures { IfOk result (λ extras. (n : NetNodeData) (o : OwnerData) (m : Option Member) → slice_get self.now.nodes.items place ≡ Some n → slice_get self.now.owners.items place ≡ Some o
            → (p : ProgramData) (s : Snapshot) (rows : RowData → Bool) (forgotten : NamedData → Bool)
            → HaveDistinctTags s.facts → HasAllOf (F.map facts.now) s forgotten → NameHeld s rows
            → NodeStands p (lent_to (option_map (λ s. source_candidates s) (source_at self.now.sources place)) (showing m n).node) (F.map facts.now) s rows forgotten
            → AreExtrasBeside p (condition_of n.node) s rows forgotten o.rule o.condition extras.items) }
    {
        match self.nodes.get(place) {
            None => Ok(Vec::new(alloc)),
            Some(node) => match self.owners.get(place) {
                None => Ok(Vec::new(alloc)),
                Some(owner) => {
                    let shared = shared_at(&self.sources, place);
                    let extras = node.extras(alloc, shared, *owner, facts)?;
                    Ok(extras)
                }
            },
        }
    }
}

// The candidates of the source of the node in a place, if it is of one. Takes no memory.
fn shared_at(sources: &Sources, place: usize) -> Option<&Candidates>
    ensures { option_map (λ c. c.now) result ≡ option_map (λ s. source_candidates s) (source_at sources.now place) }
{
    match sources.source(place) {
        Some(source) => Some(source.own()),
        None => None,
    }
}
