//! Desks that were just opened.
use crate::opening::{BARE, MOST_SLOTS, world};
use cg_desk::{CloseFault, Core, Desk, Refusal, Session, World};
use cg_world_text::WriteWorld;
use std::alloc::{AllocError, Global};
use std::sync::Wait;

/// Whether the world is the one that the desks here are opened on.
pub(crate) fn is_opening(alloc: Global, world: &World) -> Result<bool, AllocError> {
    let mut text = Vec::new(alloc);
    world.write(&mut text)?;
    Ok(text.as_slice() == BARE.as_bytes())
}

/// A desk on that world, with a history as long as can be.
pub(crate) fn open(alloc: Global) -> Result<Desk, Refusal> {
    open_on(alloc, BARE)
}

// The same on the world that a text spells.
fn open_on(alloc: Global, text: &str) -> Result<Desk, Refusal> {
    Ok(Desk::open(alloc, world(alloc, text)?, MOST_SLOTS)?)
}

/// A desk on that world, with a history of so many slots.
pub(crate) fn open_with(alloc: Global, limit: u32) -> Result<Desk, Refusal> {
    Ok(Desk::open(alloc, world(alloc, BARE)?, limit)?)
}

/// A desk, and the sessions that it is to be closed with.
#[derive(Drop)]
pub(crate) struct Opened {
    pub(crate) desk: Desk,
    pub(crate) sessions: Vec<Session>,
}

// The next so many sessions of a desk.
fn hand_out(
    rt: &impl Wait,
    alloc: Global,
    desk: &Desk,
    count: u32,
) -> Result<Vec<Session>, Refusal> {
    let mut sessions = Vec::new(alloc);
    for _ in 0..count {
        sessions.push(desk.session(rt, alloc)?)?;
    }
    Ok(sessions)
}

impl Opened {
    /// A desk on the world, and so many sessions that it handed out.
    pub(crate) fn open(rt: &impl Wait, alloc: Global, count: u32) -> Result<Opened, Refusal> {
        Opened::open_on(rt, alloc, BARE, count)
    }

    /// The same on the world that a text spells.
    pub(crate) fn open_on(
        rt: &impl Wait,
        alloc: Global,
        text: &str,
        count: u32,
    ) -> Result<Opened, Refusal> {
        let desk = open_on(alloc, text)?;
        let sessions = hand_out(rt, alloc, &desk, count)?;
        Ok(Opened { desk, sessions })
    }

    /// The desk is closed with the sessions.
    pub(crate) fn close(self, alloc: Global) -> Result<Core, CloseFault> {
        let Opened { desk, sessions } = self;
        desk.close(alloc, sessions)
    }
}
