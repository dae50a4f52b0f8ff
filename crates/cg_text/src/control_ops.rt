//! What is written to `cgroup.subtree_control`.
ghost use Rattle.cg_text.specs.Controllers.{AreApart};

use crate::controllers::Controllers;
use crate::reading::read_ops;
use cg_name::{Controller, Refusal};
use std::str::FromStr;

/// The controllers to be enabled and those to be disabled, none of them both.
#[derive(Clone, Copy, Debug, PartialEq, Eq)]
pub struct ControlOps {
    /// Those to be enabled.
    pub plus: Controllers,
    /// Those to be disabled.
    pub minus: Controllers,
    pub ghost apart: { AreApart plus minus },
}

/// No operation.
impl Default for ControlOps {
    ghost use Rattle.std.specs.Prelude.{◌≡◌};
    ghost use Rattle.cg_text.specs.Reading.{no_ops};

    ghost is_default = { λ ops. ops ≡ no_ops };

    fn default() -> ControlOps {
        ControlOps::none()
    }
}

impl FromStr for ControlOps {
    ghost use Rattle.cg_name.specs.Reads.{Reads};
    ghost use Rattle.cg_text.specs.Reading.{SpellsOps};

    type Err = Refusal;

    ghost from_str_gives = { Reads SpellsOps };

    fn from_str(text: &str) -> Result<ControlOps, Refusal> {
        read_ops(text)
    }
}

impl ControlOps {
    ghost use Rattle.std.specs.Prelude.{◌≡◌};
    ghost use Rattle.cg_text.specs.Reading.{no_ops, with_op};

    /// No operation.
    pub fn none() -> ControlOps
        ensures { result ≡ no_ops }
    {
        ControlOps {
            plus: Controllers::empty(),
            minus: Controllers::empty(),
        }
    }

    /// Enables the controller, or disables it, whatever was to be done with it before.
    pub fn add(&mut self, enables: bool, controller: Controller)
        ensures { self.new ≡ with_op enables controller self.old }
    {
        if enables {
            self.plus.insert(controller);
            self.minus.remove(controller);
        } else {
            self.plus.remove(controller);
            self.minus.insert(controller);
        }
    }
}
