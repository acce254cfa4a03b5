//! The ticket lock as a rule over a table: what each seat knows, and what is fixed when the turn is
//! made. No value of these types is made, but for `Terms` while a turn is opened.
ghost use Rattle.std.specs.Prelude.{ℕ, List};

use crate::listed::Listed;
use atomic_table::TableRule;
use std::collections::LinkedList;
use std::marker::PhantomData;
use std::snapshot::Snapshot;

/// How far a seat is with its turn.
pub enum Stage<E> {
    /// It has no ticket.
    Idle,
    /// It drew this ticket.
    Waiting(u64),
    /// Its ticket is the one now served, and it took a value that stands for this list.
    Served(u64, LinkedList<E>),
    /// The same, and NEWS already counts the list that it will leave, the last one here.
    Leaving(u64, LinkedList<E>, LinkedList<E>),
}

/// What a seat knows.
pub struct View<E> {
    pub stage: Stage<E>,
    /// The tickets that it may still draw.
    pub left: u64,
    /// The seat numbers that it holds, each with the entries that carry it.
    pub holdings: LinkedList<(u64, LinkedList<E>)>,
    /// The longest history that it has seen.
    pub seen: LinkedList<E>,
    /// The news that it has read, in order.
    pub reads: LinkedList<u64>,
    /// At the last join, the shorter of the two lists seen.
    pub merged: LinkedList<E>,
}

/// What is fixed when the turn is made: how many tickets may be drawn, and the value's first state.
#[derive(Drop)]
pub struct Terms<V> {
    pub turns: u64,
    pub first: Snapshot<V>,
}

pub struct TicketRule<V> {
    of: PhantomData<V>,
}

impl<V: Listed> TableRule<Option<V>, View<V::Entry>, Terms<V>> for TicketRule<V> {
    ghost use Rattle.ch_turn.specs.Rule.{TurnRule};
    ghost use Rattle.ch_turn.specs.Views.{first_view};

    ghost holds = { λ terms. TurnRule V.list V.by V.news (V.alike terms.first.value) terms.turns };

    ghost first = { λ terms. first_view terms.turns };
}
