//! Watches in threads of their own.

ghost use Rattle.std.specs.List.{AllZip};
ghost use Rattle.cg_watch.specs.Subscribed.{IsSubscribed, Follows};

use crate::board::Board;
use crate::looking::look;
use crate::watch::{Subscription, Watch};
use cg_lines::Sink;
use cg_view::Told;
use crossbeam_channel::{Sender, bounded};
use std::alloc::Global;
use std::sync::Wait;
use std::thread;
use std::thread::Threads;

// How many threads watches have at most: as many Viewers there may be.
const MOST_WATCHES: usize = 8;

// Subscribes each watch to what is published on the board, nothing yet, with room for so many news, and has it tell what it sees. What
// has them told of news.
pub(crate) fn subscribe_all<S: Sink>(
    alloc: Global,
    watches: &mut [Watch<S>],
    board: &mut Board,
    scripts: usize,
) -> Vec<Sender<Told>>
    ensures { AllZip (IsSubscribed S.taken) watches.old watches.new }
{
    let mut senders = Vec::new(alloc);
    for watch in watches.iter_mut() {
        subscribe(alloc, watch, board, scripts, &mut senders);
    }
    senders
}

// Subscribes the watch, and has it tell what it sees. Where there is no place or no memory for it, or its sink takes nothing, it has
// no subscription.
fn subscribe<S: Sink>(
    alloc: Global,
    watch: &mut Watch<S>,
    board: &mut Board,
    scripts: usize,
    senders: &mut Vec<Sender<Told>>,
)
    ensures { IsSubscribed S.taken watch.old watch.new }
{
    watch.subscription = None;
    if senders.reserve(1).is_err() {
        return;
    }
    let Ok((sender, news)) = bounded(alloc, scripts.max(1)) else {
        return;
    };
    let Ok(mut viewer) = board.viewer() else {
        return;
    };
    if !look(alloc, watch, &mut viewer) {
        return;
    }
    watch.subscription = Some(Subscription { viewer, news });
    senders.push_reserved(sender);
}

// Has each watch look, in a thread of its own where one can be made, as long as there can be news.
pub(crate) fn follow_all<R: Threads + Wait + Sync, S: Sink + Send>(
    rt: &R,
    alloc: Global,
    mut watches: Vec<Watch<S>>,
) -> Vec<Watch<S>>
    ensures { AllZip (Follows S.taken) watches.items result.items }
{
    thread::for_each_mut(
        rt,
        watches.as_mut_slice(),
        MOST_WATCHES,
        &|_, watch: &mut Watch<S>| { follow(rt, alloc, watch) },
    );
    watches
}

// Looks whenever there are news, until there can't be any more, or the sink takes nothing.
fn follow<S: Sink>(rt: &impl Wait, alloc: Global, watch: &mut Watch<S>)
    ensures { Follows S.taken watch.old watch.new }
{
    let Some(subscription) = watch.subscription.take() else {
        return;
    };
    let Subscription { mut viewer, news } = subscription;
    for told in news.iter(rt) {
        viewer.learn(told);
        if !look(alloc, watch, &mut viewer) {
            return;
        }
    }
}
