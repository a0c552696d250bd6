//! What stays the same in a run.

use ir_types::{Input, Module, Site};
use std::marker::Model;

/// The module, the input and the watched sites of a run.
#[derive(Drop)]
pub struct Setting<'m> {
    pub code: &'m Module,
    pub input: &'m Input,
    pub watch: &'m [Site],
}

impl<'m> Model for Setting<'m> {
    ghost use Rattle.machine_model.specs.Setting.{Setting as Fixed};

    ghost Value = { Fixed };

    ghost view = { λ setting. record { code = setting.code.now; input = setting.input.now; watch = setting.watch.now } };
}
