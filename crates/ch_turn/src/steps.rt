//! The atomic steps of the ticket lock. A step reads or changes one word; the slot moves beside it,
//! as plain memory that only the seat in its turn has. The calls of `Turn` are made of these.
ghost use Rattle.std.specs.Prelude.{◌≡◌, ◌+◌, ◌-◌, ◌^◌, ◌<◌, ◌≤◌, ℕ, List, []};
ghost use Rattle.std.specs.Prelude.{◌∷◌, ◌++◌, Option, Some, None, All, true};
ghost use Rattle.ch_turn.specs.History.{AddsOwn, IsPrefix, KnowsOwn, longer, shorter};
ghost use Rattle.ch_turn.specs.Holdings.{HasSomeNumber, IsOnceEach, has_number};
ghost use Rattle.ch_turn.specs.Views.{at_stage, joined_view, view_after_split};
ghost use Rattle.ch_turn.specs.Views.{view_after_turn, view_split_off};
ghost use Rattle.ch_turn.specs.declared.view.Stage.TheVariants.{Idle, Leaving, Served, Waiting};

use crate::listed::Listed;
use crate::plays::{Cut, Draw, Gather, Kin, Look, Next, Raise, Settle, Share, Tell};
use crate::seat::TableSeat;
use crate::turn::{NEWS, SERVING, TICKET, Turn};
use std::sync::Wait;

impl<V: Listed> Turn<V> {
    /// Draws the next ticket.
    pub(crate) fn draw(&self, seat: &mut TableSeat<V>) -> u64
        requires table { seat.old.table_id ≡ self.now.table.shared.table_id }
        requires idle { (seat.old.me.0.stage ≡ Idle) × (0 < seat.old.me.0.left)
            × HasSomeNumber seat.old.me.0.holdings }
        ensures table { (seat.new.table_id ≡ seat.old.table_id) × (seat.new.id ≡ seat.old.id) }
        ensures drew { seat.new.me
            ≡ (record seat.old.me.0 { stage = Waiting result; left = seat.old.me.0.left - 1 }, seat.old.me.1) }
    {
        self.table.shared.fetch_add::<Draw>(seat, TICKET, 1)
    }

    /// Waits until the ticket is the one now served, and takes the value out of the slot.
    pub(crate) fn take<N: Kin<V>, R: Wait>(&self, rt: &R, seat: &mut TableSeat<V>, ticket: u64) -> V
        requires table { seat.old.table_id ≡ self.now.table.shared.table_id }
        requires waits { (seat.old.me.0.stage ≡ Waiting ticket) × (seat.old.me.1 ≡ []) }
        requires kin { (x : V) → V.alike self.now.table.shared.key.first.value x → N.kin x }
        ensures table { (seat.new.table_id ≡ seat.old.table_id) × (seat.new.id ≡ seat.old.id) }
        ensures took { seat.new.me
            ≡ (at_stage seat.old.me.0 (Served ticket (V.list result)), (0, None) ∷ []) }
        ensures later { IsPrefix seat.old.me.0.seen (V.list result) × All (λ r.
            r ≤ V.news (V.list result)) seat.old.me.0.reads }
        ensures own { KnowsOwn V.by (V.list result) seat.old.me.0.holdings }
        ensures kin { N.kin result }
        ensures numbered { All (λ e. V.by e < 65536) (V.list result) }
    {
        let mut round: u32 = 0;
        for _ in rt.forever() {
            let now_serving = self.table.shared.load::<Look<N>>(seat, SERVING);
            if now_serving == ticket {
                match self.table.shared.exchange(seat, 0, None) {
                    Some(value) => return value,
                    None => unreachable!(),
                }
            }
            self.pause(rt, now_serving, round);
            round = round.saturating_add(1);
        }
        unreachable!()
    }

    /// Stores the news of the list that the seat will leave.
    pub(crate) fn tell<N: Next<V::Entry>>(&self, seat: &mut TableSeat<V>, news: u64)
        requires table { seat.old.table_id ≡ self.now.table.shared.table_id }
        requires took { (t : ℕ) × (l : List V.Entry) × (seat.old.me.0.stage ≡ Served t l)
            × AddsOwn V.by seat.old.me.0.holdings l N.next }
        requires news { news ≡ V.news N.next }
        ensures table { (seat.new.table_id ≡ seat.old.table_id) × (seat.new.id ≡ seat.old.id)
            × (seat.new.me.1 ≡ seat.old.me.1) }
        ensures told { (t : ℕ) (l : List V.Entry) → seat.old.me.0.stage ≡ Served t l → seat.new.me.0
            ≡ at_stage seat.old.me.0 (Leaving t l N.next) }
    {
        self.table.shared.store::<Tell<N>>(seat, NEWS, news);
    }

    /// Moves the value back into the slot.
    pub(crate) fn put_back(&self, seat: &mut TableSeat<V>, value: V)
        requires table { seat.old.table_id ≡ self.now.table.shared.table_id }
        requires empty { seat.old.me.1 ≡ (0, None) ∷ [] }
        ensures table { (seat.new.table_id ≡ seat.old.table_id) × (seat.new.id ≡ seat.old.id) }
        ensures back { seat.new.me ≡ (seat.old.me.0, (0, Some value) ∷ []) }
    {
        let vacant = self.table.shared.exchange(seat, 0, Some(value));
        let None = vacant else { unreachable!() };
    }

    /// Serves the next ticket, where the value is in its slot again. It publishes the list that the
    /// seat leaves.
    pub(crate) fn raise<N: Next<V::Entry>>(&self, seat: &mut TableSeat<V>)
        requires table { seat.old.table_id ≡ self.now.table.shared.table_id }
        requires told { (t : ℕ) × (l : List V.Entry) × (seat.old.me.0.stage ≡ Leaving t l N.next) }
        requires back { (x : V) × (seat.old.me.1 ≡ (0, Some x) ∷ []) × (V.list x ≡ N.next)
            × V.alike self.now.table.shared.key.first.value x }
        ensures table { (seat.new.table_id ≡ seat.old.table_id) × (seat.new.id ≡ seat.old.id)
            × (seat.new.me.1 ≡ []) }
        ensures raised { seat.new.me.0 ≡ view_after_turn V.by N.next seat.old.me.0 }
    {
        self.table.shared.fetch_add::<Raise>(seat, SERVING, 1);
    }

    /// Ends a turn: NEWS first, then the slot, then SERVING. So a read of NEWS is never behind a
    /// published list.
    pub(crate) fn give_back<N: Next<V::Entry>>(&self, seat: &mut TableSeat<V>, value: V, news: u64)
        requires table { seat.old.table_id ≡ self.now.table.shared.table_id }
        requires took { (t : ℕ) × (l : List V.Entry) × (seat.old.me.0.stage ≡ Served t l)
            × AddsOwn V.by seat.old.me.0.holdings l N.next }
        requires empty { seat.old.me.1 ≡ (0, None) ∷ [] }
        requires value { V.list value ≡ N.next }
        requires alike { V.alike self.now.table.shared.key.first.value value }
        requires news { news ≡ V.news N.next }
        ensures table { (seat.new.table_id ≡ seat.old.table_id) × (seat.new.id ≡ seat.old.id)
            × (seat.new.me.1 ≡ []) }
        ensures gave { seat.new.me.0 ≡ view_after_turn V.by N.next seat.old.me.0 }
    {
        self.tell::<N>(seat, news);
        self.put_back(seat, value);
        self.raise::<N>(seat);
    }

    /// Cuts off a seat with the number and the turns, which are read by the contract alone.
    pub(crate) fn cut<C: Share>(
        &self,
        seat: &mut TableSeat<V>,
        _number: u32,
        _turns: u64,
    ) -> TableSeat<V>
        requires picked { (C.number ≡ _number) × (C.turns ≡ _turns) }
        requires table { seat.old.table_id ≡ self.now.table.shared.table_id }
        requires idle { (seat.old.me.0.stage ≡ Idle)
            × (has_number C.number seat.old.me.0.holdings ≡ true) × (C.turns ≤ seat.old.me.0.left) }
        ensures table { (seat.new.table_id ≡ seat.old.table_id)
            × (result.table_id ≡ seat.old.table_id) }
        ensures cut { (seat.new.me
            ≡ (view_after_split C.number C.turns seat.old.me.0, seat.old.me.1))
            × (result.me ≡ (view_split_off C.number C.turns seat.old.me.0, [])) }
    {
        self.table.shared.split_seat::<Cut<C>>(seat)
    }

    /// Takes the other seat in, and looks once more for what the join alone can't tell.
    pub(crate) fn gather(&self, seat: &mut TableSeat<V>, other: TableSeat<V>)
        requires table { (seat.old.table_id ≡ self.now.table.shared.table_id)
            × (other.table_id ≡ self.now.table.shared.table_id) × (other.me.1 ≡ []) }
        requires idle { (seat.old.me.0.stage ≡ Idle) × (other.me.0.stage ≡ Idle) }
        ensures table { seat.new.table_id ≡ seat.old.table_id }
        ensures both { seat.new.me ≡ (joined_view seat.old.me.0 other.me.0, seat.old.me.1) }
        ensures prefix { IsPrefix (shorter seat.old.me.0.seen other.me.0.seen) (longer seat.old.me.0.seen other.me.0.seen) }
        ensures once { IsOnceEach (seat.old.me.0.holdings ++ other.me.0.holdings) }
        ensures few { seat.old.me.0.left + other.me.0.left < 2 ^ 63 }
    {
        self.table.shared.join_seat::<Gather>(seat, other);
        self.table.shared.load::<Settle>(seat, TICKET);
    }
}
