ghost use Rattle.std.specs.Prelude.{◌≡◌, IfOk};
ghost use Rattle.rule_model.specs.Distinct.{HaveDistinctTags};
ghost use Rattle.rule_model.specs.Lent.{lent};
ghost use Rattle.image_making.specs.AtHand.{HasEach};

use fx_base::{Fact, Facts, NoMemory, Tag};
use std::alloc::Global;
use std::collections::BTreeMap;

/// Lent facts by their tags.
#[derive(Drop)]
pub(crate) struct AtHand<'a> {
    by_tag: BTreeMap<u64, &'a Fact>,
}

impl<'a> AtHand<'a> {
    /// These facts, which have distinct tags. It costs the logarithm of their number for each.
    pub(crate) fn of(alloc: Global, facts: &'a [Fact]) -> Result<AtHand<'a>, NoMemory>
        requires { HaveDistinctTags facts.now }
        ensures { IfOk result (λ held. HasEach held facts.now) }
    {
        let mut by_tag = BTreeMap::new(alloc);
        for fact in facts {
            by_tag.insert(fact.tag.0, fact)?;
        }
        Ok(AtHand { by_tag })
    }
}

/// References to these facts.
pub(crate) fn lent_facts(alloc: Global, facts: &[Fact]) -> Result<Vec<&Fact>, NoMemory>
    ensures { IfOk result (λ kept. lent kept.items ≡ facts.now) }
{
    let mut kept = Vec::with_capacity(alloc, facts.len())?;
    for fact in facts {
        kept.push(fact)?;
    }
    Ok(kept)
}

impl<'a> Facts for AtHand<'a> {
    ghost use Rattle.image_making.specs.AtHand.{fact_at};

    ghost map = { fact_at };

    fn fact(&self, tag: Tag) -> Option<&Fact> {
        self.by_tag.get(&tag.0).copied()
    }
}
