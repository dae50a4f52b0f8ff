//! One machine under a lock, for sessions in any threads.
ghost use Rattle.std.specs.Prelude.{◌≡◌, ◌≤◌, ◌⊎◌, [], ℕ, IfErr, IfOk, OnErr, OnOk, length};
ghost use Rattle.std.specs.Result.{IsErrOf};
ghost use Rattle.cg_core.specs.State.{CoreState};
ghost use Rattle.cg_desk.specs.Audit.{IsAudited};
ghost use Rattle.cg_desk.specs.Publishing.{IsPublishing};
ghost use Rattle.cg_name.specs.declared.refusal.Refusal.TheVariants as refusals;
ghost use Rattle.cg_view.specs.Operations.{StartsWith};
ghost use Rattle.cg_view.specs.Publishers.{appended, opening, published};

use crate::auditing::audit;
use crate::session::Session;
use cg_core::{Core, SessionId};
use cg_name::Refusal;
use cg_view::{Publisher, Told};
use cg_world::World;
use std::alloc::{AllocError, Global};
use std::sync::{Mutex, Wait};

// How many sessions a desk hands out at most.
const MOST_SESSIONS: u32 = 65_536;

// What the lock holds.
#[derive(Drop)]
pub(crate) struct Locked {
    pub(crate) core: Core,
    // How many sessions were handed out.
    pub(crate) handed: u32,
    ghost few: { handed ≤ 65536 },
}

/// One machine under a lock. Each call of its sessions is one step under it, and it isn't kept between two calls.
#[derive(Drop)]
pub struct Desk {
    pub(crate) locked: Mutex<Locked>,
}

/// Why a desk wasn't closed, and all that was handed to `close`.
#[derive(Drop)]
pub struct CloseFault {
    /// `Disagree`, or `Memory`.
    pub refusal: Refusal,
    /// The desk, as it was.
    pub desk: Desk,
    /// The sessions, as they were.
    pub sessions: Vec<Session>,
}

impl Desk {
    /// A desk with a machine on this world's tree, whose history has at most `limit` slots, from 2 to 1,048,576; an error
    /// where there is no memory for it.
    pub fn open(alloc: Global, world: World, limit: u32) -> Result<Desk, AllocError>
        requires low { 2 ≤ limit }
        requires high { limit ≤ 1048576 }
    {
        let core = Core::open(alloc, world, limit)?;
        Ok(Desk {
            locked: Mutex::new(Locked { core, handed: 0 }),
        })
    }

    /// A session that made no call yet, by the next number, from 1. `Full` where 65,536 were handed out.
    pub fn session(&self, rt: &impl Wait, alloc: Global) -> Result<Session, Refusal>
        ensures new { IfOk result (λ s. s.log ≡ []) }
        ensures low { IfOk result (λ s. 1 ≤ s.number) }
        ensures high { IfOk result (λ s. s.number ≤ 65536) }
        ensures full { IfErr result (λ e. e ≡ refusals.Full) }
    {
        let mut locked = self.locked.lock(rt);
        if locked.handed >= MOST_SESSIONS {
            return Err(Refusal::Full);
        }
        locked.handed += 1;
        let number = SessionId(locked.handed);
        Ok(Session {
            number,
            log: Vec::new(alloc),
        })
    }

    /// Publishes all commits of the machine at once, under the lock, and tells how much is published then. `Disagree`, which is
    /// tested first and changes nothing, where the Publisher shows another machine's commits, or another opening world.
    /// `Memory`, where there is none, publishes nothing, and a later call goes on from there. It takes time linear in all that
    /// the machine committed, and waits for the lock and for Viewers that are reading.
    pub fn publish<R: Wait>(
        &self,
        rt: &R,
        alloc: Global,
        publisher: &mut Publisher,
    ) -> Result<Told, Refusal>
        ensures of_machine { (core : CoreState) × IsPublishing core publisher.old publisher.new result }
        ensures opening { opening publisher.new ≡ opening publisher.old }
        ensures later { StartsWith (published publisher.new) (published publisher.old) }
        ensures told { IfOk result (λ t. t.count ≡ length (published publisher.new)) }
        ensures spent { OnOk result (appended publisher.new ≡ []) }
        ensures refusals { IfErr result (λ e. (e ≡ refusals.Disagree) ⊎ (e ≡ refusals.Memory)) }
        ensures unchanged { IsErrOf result refusals.Disagree → appended publisher.new ≡ appended publisher.old }
        ensures nothing { OnErr result (published publisher.new ≡ published publisher.old) }
    {
        let locked = self.locked.lock(rt);
        let core = &locked.core;
        core.laws();
        publisher.publish(rt, alloc, core)
    }

    /// The machine, where the sessions are those that the desk handed out, and they and its history agree as `audit` says. Else
    /// all is handed back, with `Disagree`, or with `Memory`.
    pub fn close(self, alloc: Global, sessions: Vec<Session>) -> Result<Core, CloseFault>
        ensures agrees { IfOk result (λ core. (handed : ℕ) × (handed ≤ 65536) × IsAudited core.history handed sessions.items) }
        ensures back { IfErr result (λ f. f.sessions.items ≡ sessions.items) }
        ensures refusals { IfErr result (λ f. (f.refusal ≡ refusals.Disagree) ⊎ (f.refusal ≡ refusals.Memory)) }
    {
        let Desk { locked } = self;
        let Locked { core, handed } = locked.into_inner();
        match audit(alloc, &core, handed, sessions.as_slice()) {
            Ok(()) => Ok(core),
            Err(refusal) => Err(CloseFault {
                refusal,
                desk: Desk {
                    locked: Mutex::new(Locked { core, handed }),
                },
                sessions,
            }),
        }
    }
}
