//! Operations on controllers in little room.
ghost use Rattle.std.specs.Prelude.{◌≡◌};
ghost use Rattle.cg_command.specs.CompactOps.{disables, enables, op_by};

use cg_text::{ControlOps, Controllers};
use std::marker::Model;

// What is to be done with one controller.
#[derive(Clone, Copy)]
enum Op {
    Keep,
    Enable,
    Disable,
}

/// The controllers to be enabled and those to be disabled, none of them both, in 8 bytes.
#[derive(Clone, Copy)]
pub struct CompactOps {
    cpuset: Op,
    cpu: Op,
    io: Op,
    memory: Op,
    hugetlb: Op,
    pids: Op,
    rdma: Op,
    misc: Op,
}

// Beside a path it is no larger than what the other commands have.
const _: () = prove!(size_of::<CompactOps>() == 8);

impl Model for CompactOps {
    ghost use Rattle.cg_model.specs.CommandCode.{ops_code};
    ghost use Rattle.cg_text.specs.declared.control_ops.ControlOps.{ControlOps};

    ghost Value = { ControlOps };

    ghost coded = { ops_code };

    ghost use Rattle.cg_command.specs.CompactFields.{ops_of, fields_of, fields_back};

    ghost view = { ops_of };

    ghost inverse = { fields_of };

    ghost inverse_ok = { λ k _. fields_back k };
}

impl PartialEq for CompactOps {
    ghost use Rattle.cg_text.specs.contracts.control_ops.ControlOpsPartialEq.TheImpl as ops_eq;
    ghost use Rattle.cg_text.specs.contracts.control_ops.ControlOpsPartialEq.TheImpl.Laws.{laws-law};

    ghost eq = { ops_eq.ghosts.eq };

    ghost laws = { laws-law };

    fn eq(&self, other: &CompactOps) -> bool {
        self.get() == other.get()
    }
}

impl Eq for CompactOps {
    ghost use Rattle.cg_text.specs.contracts.control_ops.ControlOpsEq.TheImpl.Laws.{laws-law};

    ghost laws = { laws-law };
}

impl CompactOps {
    /// These operations.
    pub fn new(ops: ControlOps) -> CompactOps
        ensures { result ≡ ops }
    {
        let ControlOps { plus, minus } = ops;
        CompactOps {
            cpuset: Op::of(plus.cpuset, minus.cpuset),
            cpu: Op::of(plus.cpu, minus.cpu),
            io: Op::of(plus.io, minus.io),
            memory: Op::of(plus.memory, minus.memory),
            hugetlb: Op::of(plus.hugetlb, minus.hugetlb),
            pids: Op::of(plus.pids, minus.pids),
            rdma: Op::of(plus.rdma, minus.rdma),
            misc: Op::of(plus.misc, minus.misc),
        }
    }

    /// The operations.
    pub fn get(&self) -> ControlOps
        ensures { result ≡ self.now }
    {
        ControlOps {
            plus: Controllers {
                cpuset: self.cpuset.enables(),
                cpu: self.cpu.enables(),
                io: self.io.enables(),
                memory: self.memory.enables(),
                hugetlb: self.hugetlb.enables(),
                pids: self.pids.enables(),
                rdma: self.rdma.enables(),
                misc: self.misc.enables(),
            },
            minus: Controllers {
                cpuset: self.cpuset.disables(),
                cpu: self.cpu.disables(),
                io: self.io.disables(),
                memory: self.memory.disables(),
                hugetlb: self.hugetlb.disables(),
                pids: self.pids.disables(),
                rdma: self.rdma.disables(),
                misc: self.misc.disables(),
            },
        }
    }
}

impl Op {
    // What is to be done with a controller that is to be enabled, or disabled, or neither.
    fn of(plus: bool, minus: bool) -> Op
        ensures { result ≡ op_by plus minus }
    {
        if plus {
            Op::Enable
        } else if minus {
            Op::Disable
        } else {
            Op::Keep
        }
    }

    fn enables(self) -> bool
        ensures { result ≡ enables self }
    {
        matches!(self, Op::Enable)
    }

    fn disables(self) -> bool
        ensures { result ≡ disables self }
    {
        matches!(self, Op::Disable)
    }
}
