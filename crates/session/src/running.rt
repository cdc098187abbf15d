use fx_base::NoMemory;
use session_model::Setting;
use std::alloc::Global;
use std::marker::Model;

/// A setting that sessions run: a program that engines run, and a safe table of lives.
#[derive(Drop)]
pub(crate) struct Running {
    inside: Box<Setting>,
}

impl Model for Running {
    ghost use Rattle.std.specs.Coded.{codes};
    ghost use Rattle.rule_model.specs.ExpressionCode.{expression_code};
    ghost use Rattle.session_model.specs.declared.setting.Setting.{Setting as SettingData};
    ghost use Rattle.session_model.specs.Standing.{Runs};

    ghost Value = { SettingData };

    ghost coded = { Prim.hlevel (codes, expression_code) };

    ghost view = { λ s. s.inside.value };

    ghost invariant = { λ s. Runs s.inside.value };
}

impl Running {
    ghost use Rattle.std.specs.Prelude.{◌≡◌, IfOk};
    ghost use Rattle.session_model.specs.Standing.{Runs};

    pub(crate) fn new(alloc: Global, setting: Setting) -> Result<Running, NoMemory>
        requires { Runs setting }
        ensures { IfOk result (λ s. s ≡ setting) }
    {
        Ok(Running {
            inside: Box::new(alloc, setting)?,
        })
    }

    /// The setting. Takes no memory.
    pub(crate) fn setting(&self) -> &Setting
        ensures same { result.now ≡ self.now }
        ensures runs { Runs result.now }
    {
        &self.inside
    }
}
