//! What each atomic step of the ticket lock tells the seat that makes it.
ghost use Rattle.std.specs.Prelude.{List, ℕ};
ghost use Rattle.ch_turn.specs.Plays.{Draws, Looks, ReadsNews, Raises, Settles, TellsNews};
ghost use Rattle.ch_turn.specs.Views.{joined_view, spent_view, view_after_split, view_split_off};

use crate::listed::Listed;
use crate::view::View;
use atomic_table::{Join, Play, Split};
use std::marker::{Brand, PhantomData};

/// Draws a ticket.
pub(crate) struct Draw;

impl<V: Listed> Play<Option<V>, View<V::Entry>> for Draw {
    ghost then = { Draws };
}

/// What a look tells of the value that it takes, picked at each call: a step can't read the table's
/// terms.
pub(crate) trait Kin<V> {
    ghost kin: { V → Type 0 };
}

impl<V> Kin<V> for Brand {
    ghost kin = { λ _. Unit {0} };
}

/// Looks at SERVING, and takes the value where the seat's ticket is served.
pub(crate) struct Look<N> {
    of: PhantomData<N>,
}

impl<V: Listed, N: Kin<V>> Play<Option<V>, View<V::Entry>> for Look<N> {
    ghost then = { Looks V.list V.by V.news N.kin };
}

/// The list that a seat will leave, picked at each call.
pub(crate) trait Next<E> {
    ghost next: { List E };
}

impl<E> Next<E> for Brand {
    ghost use Rattle.std.specs.Prelude.{[]};

    ghost next = { [] };
}

/// Stores NEWS.
pub(crate) struct Tell<N> {
    of: PhantomData<N>,
}

impl<V: Listed, N: Next<V::Entry>> Play<Option<V>, View<V::Entry>> for Tell<N> {
    ghost then = { TellsNews N.next };
}

/// Raises SERVING.
pub(crate) struct Raise;

impl<V: Listed> Play<Option<V>, View<V::Entry>> for Raise {
    ghost then = { Raises V.by };
}

/// Loads NEWS.
pub(crate) struct Read;

impl<V: Listed> Play<Option<V>, View<V::Entry>> for Read {
    ghost then = { ReadsNews V.news };
}

/// The number and the turns of a new seat, picked at each call.
pub(crate) trait Share {
    ghost number: { ℕ };

    ghost turns: { ℕ };
}

impl Share for Brand {
    ghost number = { 0 };

    ghost turns = { 0 };
}

/// Cuts a new seat off.
pub(crate) struct Cut<C> {
    of: PhantomData<C>,
}

impl<E, C: Share> Split<View<E>> for Cut<C> {
    ghost left = { view_after_split C.number C.turns };

    ghost right = { view_split_off C.number C.turns };
}

/// Takes another seat in.
pub(crate) struct Gather;

impl<E> Join<View<E>> for Gather {
    ghost both = { joined_view };

    ghost spent = { spent_view };
}

/// Looks at TICKET after a join, for what the join alone can't tell.
pub(crate) struct Settle;

impl<V: Listed> Play<Option<V>, View<V::Entry>> for Settle {
    ghost then = { Settles };
}
