//! What is published of a run.
ghost use Rattle.std.specs.Prelude.{◌≡◌, IfOk};
ghost use Rattle.cg_view.specs.Viewers.{seen_by};
ghost use Rattle.cg_view.specs.Views.{newcomer};

use cg_desk::Desk;
use cg_name::Refusal;
use cg_view::{Publisher, Told, Viewer};
use crossbeam_channel::Sender;
use std::alloc::Global;
use std::sync::{Mutex, MutexGuard, Wait};

/// A Publisher that workers share. As that it can't be dropped: `end` spends it.
pub(crate) struct Board {
    publisher: Mutex<Publisher>,
}

impl Board {
    // Nothing is published yet.
    pub(crate) fn new(publisher: Publisher) -> Board {
        Board {
            publisher: Mutex::new(publisher),
        }
    }

    // Publishes what the desk has committed, and has each watch told before more is published. For want of memory nothing is
    // published, and no watch is told: the next time goes on from there.
    pub(crate) fn publish<R: Wait>(
        &self,
        rt: &R,
        alloc: Global,
        desk: &Desk,
        watches: &[Sender<Told>],
    ) {
        let mut publisher = self.publisher.lock(rt);
        if let Ok(told) = desk.publish(rt, alloc, &mut *publisher) {
            for watch in watches {
                // There is room for news of each script.
                let _ = watch.try_send(rt, told);
            }
        }
        // What a guard's drop would do, but for what is locked: that can't be dropped.
        let _ = MutexGuard::unlock(publisher);
    }

    // A Viewer that has seen nothing, where there is a place for it.
    pub(crate) fn viewer(&mut self) -> Result<Viewer, Refusal>
        ensures { IfOk result (λ v. seen_by v ≡ newcomer) }
    {
        self.publisher.get_mut().viewer()
    }

    // Waits for the Viewers that are reading, and ends.
    pub(crate) fn end<R: Wait>(self, rt: &R) {
        let Board { publisher } = self;
        publisher.into_inner().end(rt);
    }
}
