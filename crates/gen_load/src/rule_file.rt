ghost use Rattle.std.specs.Prelude.{◌≡◌, IfOk};
ghost use Rattle.gen_load.specs.Rules.{rules_text};

use fx_base::{NoMemory, Seq};
use std::alloc::Global;

const RULES: &str = r#"declare Card @role( event ) acct : long amount : long end
declare Ping @role( event ) acct : long end
rule "pair" when $a : Card() Card( acct == $a.acct, this after[1ms,30s] $a ) then end
rule "silent" when $a : Card( amount > 900 ) not( Ping( acct == $a.acct, this after[0s,10s] $a ) ) then end
rule "busy" when Number( longValue > 40 ) from accumulate( Card( $m : amount ) over window:time( 20s ), count( $m ) ) then end
"#;

/// The rule file, which is the same for every load.
#[tactic(auto, unfolding(crate::specs::Rules::rules_text))]
pub fn rules(alloc: Global) -> Result<Seq<u8>, NoMemory>
    ensures { IfOk result (λ rules. rules ≡ rules_text) }
{
    Ok(Seq::from_vec(Vec::from_slice(alloc, RULES.as_bytes())?))
}
