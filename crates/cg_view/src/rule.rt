//! The rule over what is published: the list of operations only grows, and the opening world stays.
ghost use Rattle.cg_view.specs.Views.{newcomer, Keeps, Publishes};

use crate::operation::Operation;
use crate::shown::Shown;
use cg_world::World;
use crossbeam_utils::rule::{Outcome, Protocol};
use left_right::reader::Reader;
use left_right::writer::Writer;
use std::collections::LinkedList;

/// What one seat has seen: the opening world, once it has seen one, and the operations. No value of it is made.
pub struct View {
    pub opening: LinkedList<World>,
    pub seen: LinkedList<Operation>,
}

pub struct Published;

impl Protocol<Shown, View> for Published {
    ghost holds = { Keeps };

    ghost first = { newcomer };
}

pub struct Sees;

impl Outcome<Shown, View> for Sees {
    ghost then = { Publishes };
}

pub type ShownReader = Reader<Shown, View, Published>;

pub type ShownWriter = Writer<Shown, Operation, View, Published>;
