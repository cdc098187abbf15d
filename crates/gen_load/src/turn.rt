ghost use Rattle.std.specs.Prelude.{◌≡◌, ◌++◌, OnOk, string_bytes};
ghost use Rattle.gen_load.specs.Script.{turn_text, turn_after};

use crate::draws::Draws;
use fx_base::NoMemory;
use std::fmt::Write;

/// What one turn of a script does: the clock goes on, a card or a ping comes in, and the rules fire.
#[derive(Clone, Copy)]
pub struct Turn {
    /// Milliseconds.
    pub by: u32,
    pub account: u32,
    /// The amount of a card; none for a ping.
    pub amount: Option<u32>,
}

impl Turn {
    pub fn draw(draws: &mut Draws) -> Turn
        ensures turn { result ≡ (turn_after draws.old.number).turn }
        ensures after { draws.new.number ≡ (turn_after draws.old.number).after }
    {
        let by = draws.draw(1000);
        let account = draws.draw(50);
        let amount = if draws.draw(4) < 3 {
            Some(draws.draw(1000))
        } else {
            None
        };
        Turn {
            by,
            account,
            amount,
        }
    }

    /// Appends its three lines.
    pub fn write(&self, script: &mut String) -> Result<(), NoMemory>
        ensures { OnOk result (string_bytes script.new ≡ string_bytes script.old ++ turn_text self.now) }
    {
        let Turn {
            by,
            account,
            amount,
        } = *self;
        writeln!(script, "{{\"do\":\"advance\",\"by\":{by}}}")?;
        match amount {
            Some(amount) => writeln!(
                script,
                "{{\"do\":\"insert\",\"type\":\"Card\",\"fields\":{{\"acct\":{account},\"amount\":{amount}}}}}"
            )?,
            None => writeln!(
                script,
                "{{\"do\":\"insert\",\"type\":\"Ping\",\"fields\":{{\"acct\":{account}}}}}"
            )?,
        }
        script.push_str("{\"do\":\"fire\"}\n")?;
        Ok(())
    }
}
