// How many of the groups right below a path pass on each controller.
ghost use Rattle.std.specs.Prelude.{◌≡◌, nat_lt};
ghost use Rattle.cg_text.specs.Controllers.{such_that};
ghost use Rattle.cg_tree.specs.Passing.{control_of, step, stepped, tally, times, CanPass, CanStep};

use crate::entry::counted;
use cg_boxed::CompactSettings;
use cg_text::Controllers;

// For each controller, how many of these groups pass it on.
#[derive(Clone, Copy)]
pub(crate) struct Passing {
    cpuset: u32,
    cpu: u32,
    io: u32,
    memory: u32,
    hugetlb: u32,
    pids: u32,
    rdma: u32,
    misc: u32,
}

impl Passing {
    // No group passes on any.
    pub(crate) fn none() -> Passing
        ensures { result ≡ tally (λ c. 0) }
    {
        Passing {
            cpuset: 0,
            cpu: 0,
            io: 0,
            memory: 0,
            hugetlb: 0,
            pids: 0,
            rdma: 0,
            misc: 0,
        }
    }

    // The controllers that one of the groups passes on.
    pub(crate) fn controllers(&self) -> Controllers
        ensures { result ≡ such_that (λ c. nat_lt 0 (times self.now c)) }
    {
        Controllers {
            cpuset: self.cpuset > 0,
            cpu: self.cpu > 0,
            io: self.io > 0,
            memory: self.memory > 0,
            hugetlb: self.hugetlb > 0,
            pids: self.pids > 0,
            rdma: self.rdma > 0,
            misc: self.misc > 0,
        }
    }

    // The counts where one of the groups passes on the second set in place of the first.
    pub(crate) fn changed(&self, before: &Controllers, after: &Controllers) -> Passing
        requires { CanPass before.now after.now self.now }
        ensures { result ≡ stepped before.now after.now self.now }
    {
        Passing {
            cpuset: stepped(self.cpuset, before.cpuset, after.cpuset),
            cpu: stepped(self.cpu, before.cpu, after.cpu),
            io: stepped(self.io, before.io, after.io),
            memory: stepped(self.memory, before.memory, after.memory),
            hugetlb: stepped(self.hugetlb, before.hugetlb, after.hugetlb),
            pids: stepped(self.pids, before.pids, after.pids),
            rdma: stepped(self.rdma, before.rdma, after.rdma),
            misc: stepped(self.misc, before.misc, after.misc),
        }
    }
}

// The count, by whether a group was counted before and is counted after.
fn stepped(count: u32, before: bool, after: bool) -> u32
    requires { CanStep before after count }
    ensures { result ≡ step before after count }
{
    if before == after {
        return count;
    }
    counted(count, after)
}

// The controllers that a group of these settings passes on; none where there is no group.
pub(crate) fn control_of(settings: &Option<CompactSettings>) -> Controllers
    ensures { result ≡ control_of settings.now }
{
    match settings {
        Some(settings) => settings.control(),
        None => Controllers::empty(),
    }
}
