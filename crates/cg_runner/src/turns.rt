//! Which transactions the workers have open, so that a script which was refused as busy is begun anew when the one that was in
//! its way has ended. Whoever waits here has no transaction open.
use crate::workers::MOST_WORKERS;
use cg_desk::TxnNumber;
use std::sync::{Condvar, Mutex, Wait};

/// The numbers of the transactions that are open, by the seats of the workers that have them.
#[derive(Drop)]
pub(crate) struct Turns {
    open: Mutex<[Option<u32>; MOST_WORKERS]>,
    ended: Condvar,
}

impl Turns {
    // None is open.
    pub(crate) fn new() -> Turns {
        Turns {
            open: Mutex::new([None; MOST_WORKERS]),
            ended: Condvar::new(),
        }
    }

    // Notes that the worker at this seat has begun the transaction.
    pub(crate) fn begin(&self, rt: &impl Wait, seat: usize, transaction: TxnNumber) {
        self.put(rt, seat, Some(transaction.0));
    }

    // Notes that it has none open any more: whoever waited for that one's end goes on.
    pub(crate) fn end(&self, rt: &impl Wait, seat: usize) {
        self.put(rt, seat, None);
        self.ended.notify_all();
    }

    fn put(&self, rt: &impl Wait, seat: usize, transaction: Option<u32>) {
        let mut open = self.open.lock(rt);
        if let Some(own) = open.get_mut(seat) {
            *own = transaction;
        }
    }

    // Waits until no worker has the transaction open.
    pub(crate) fn wait_for_end(&self, rt: &impl Wait, transaction: TxnNumber) {
        let open = self.open.lock(rt);
        let _open = self
            .ended
            .wait_while(rt, open, |open| open.contains(&Some(transaction.0)));
    }
}
