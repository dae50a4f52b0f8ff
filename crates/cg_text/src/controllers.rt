//! Sets of controllers.
ghost use Rattle.std.specs.Prelude.{◌≡◌, ◌↔◌, ◌&&◌, ◌||◌, not, IsTrue, true, false, Bool};
ghost use Rattle.cg_text.specs.Controllers.{has, such_that, no_controllers, with_controller, without_controller, is_no_controllers, is_within};

use cg_name::Controller;

/// A set of controllers.
#[derive(Clone, Copy, Debug, PartialEq, Eq)]
pub struct Controllers {
    /// Whether it has `cpuset`.
    pub cpuset: bool,
    /// Whether it has `cpu`.
    pub cpu: bool,
    /// Whether it has `io`.
    pub io: bool,
    /// Whether it has `memory`.
    pub memory: bool,
    /// Whether it has `hugetlb`.
    pub hugetlb: bool,
    /// Whether it has `pids`.
    pub pids: bool,
    /// Whether it has `rdma`.
    pub rdma: bool,
    /// Whether it has `misc`.
    pub misc: bool,
}

/// The set of none.
impl Default for Controllers {
    ghost is_default = { λ s. s ≡ no_controllers };

    fn default() -> Controllers {
        Controllers::empty()
    }
}

impl Controllers {
    /// The set of none.
    pub fn empty() -> Controllers
        ensures { result ≡ no_controllers }
    {
        Controllers {
            cpuset: false,
            cpu: false,
            io: false,
            memory: false,
            hugetlb: false,
            pids: false,
            rdma: false,
            misc: false,
        }
    }

    /// Whether the set has the controller.
    pub fn contains(&self, controller: Controller) -> bool
        ensures { result ≡ has self.now controller }
    {
        match controller {
            Controller::Cpuset => self.cpuset,
            Controller::Cpu => self.cpu,
            Controller::Io => self.io,
            Controller::Memory => self.memory,
            Controller::Hugetlb => self.hugetlb,
            Controller::Pids => self.pids,
            Controller::Rdma => self.rdma,
            Controller::Misc => self.misc,
        }
    }

    /// Adds the controller.
    pub fn insert(&mut self, controller: Controller)
        ensures { self.new ≡ with_controller controller self.old }
    {
        match controller {
            Controller::Cpuset => self.cpuset = true,
            Controller::Cpu => self.cpu = true,
            Controller::Io => self.io = true,
            Controller::Memory => self.memory = true,
            Controller::Hugetlb => self.hugetlb = true,
            Controller::Pids => self.pids = true,
            Controller::Rdma => self.rdma = true,
            Controller::Misc => self.misc = true,
        }
    }

    /// Removes the controller.
    pub fn remove(&mut self, controller: Controller)
        ensures { self.new ≡ without_controller controller self.old }
    {
        match controller {
            Controller::Cpuset => self.cpuset = false,
            Controller::Cpu => self.cpu = false,
            Controller::Io => self.io = false,
            Controller::Memory => self.memory = false,
            Controller::Hugetlb => self.hugetlb = false,
            Controller::Pids => self.pids = false,
            Controller::Rdma => self.rdma = false,
            Controller::Misc => self.misc = false,
        }
    }

    /// Whether the set has no controller.
    pub fn is_empty(&self) -> bool
        ensures { IsTrue result ↔ (self.now ≡ no_controllers) }
    {
        *self == Controllers::empty()
    }

    /// Whether the other set has every controller of this one.
    pub fn is_subset(&self, other: &Controllers) -> bool
        ensures { result ≡ is_within self.now other.now }
    {
        Controller::ALL
            .iter()
            .all(|c| !self.contains(*c) || other.contains(*c))
    }

    /// The controllers of this set and those of the other.
    pub fn union(&self, other: &Controllers) -> Controllers
        ensures { result ≡ such_that (λ c. has self.now c || has other.now c) }
    {
        Controllers {
            cpuset: self.cpuset || other.cpuset,
            cpu: self.cpu || other.cpu,
            io: self.io || other.io,
            memory: self.memory || other.memory,
            hugetlb: self.hugetlb || other.hugetlb,
            pids: self.pids || other.pids,
            rdma: self.rdma || other.rdma,
            misc: self.misc || other.misc,
        }
    }

    /// The controllers of this set that the other hasn't.
    pub fn difference(&self, other: &Controllers) -> Controllers
        ensures { result ≡ such_that (λ c. has self.now c && not (has other.now c)) }
    {
        Controllers {
            cpuset: self.cpuset && !other.cpuset,
            cpu: self.cpu && !other.cpu,
            io: self.io && !other.io,
            memory: self.memory && !other.memory,
            hugetlb: self.hugetlb && !other.hugetlb,
            pids: self.pids && !other.pids,
            rdma: self.rdma && !other.rdma,
            misc: self.misc && !other.misc,
        }
    }
}
