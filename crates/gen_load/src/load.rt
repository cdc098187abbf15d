ghost use Rattle.std.specs.Prelude.{◌≡◌, ◌^◌, ◌<◌, IfOk, string_bytes};
ghost use Rattle.gen_load.specs.Rules.{rules_text};
ghost use Rattle.gen_load.specs.Script.{turns_text, script_text};

use crate::draws::Draws;
use crate::rule_file::rules;
use crate::turn::Turn;
use fx_base::{NoMemory, Seq};
use std::alloc::Global;

/// A rule file and a script for it.
#[derive(Debug, Drop)]
pub struct Generated {
    pub rules: Seq<u8>,
    pub script: Seq<u8>,
}

/// How many turns a script has.
const TURNS: u32 = 20_000;

/// The load with this number: the same rule file for each, and a script of 20,000 turns.
pub fn generate(alloc: Global, n: u32) -> Result<Generated, NoMemory>
    requires { n < 2 ^ 31 }
    ensures rules { IfOk result (λ generated. generated.rules ≡ rules_text) }
    ensures script { IfOk result (λ generated. generated.script ≡ script_text n) }
{
    Ok(Generated {
        rules: rules(alloc)?,
        script: script(alloc, TURNS, n)?,
    })
}

fn script(alloc: Global, turns: u32, n: u32) -> Result<Seq<u8>, NoMemory>
    requires { n < 2 ^ 31 }
    ensures { IfOk result (λ script. script ≡ turns_text turns n) }
{
    let mut draws = Draws { number: n };
    let mut script = String::new(alloc);
    for _ in 0..turns {
        Turn::draw(&mut draws).write(&mut script)?;
    }
    Ok(Seq::from_vec(script.into_bytes()))
}
