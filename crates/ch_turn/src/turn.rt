//! The turn and its calls.
ghost use Rattle.std.specs.Prelude.{◌≡◌};

use crate::listed::Listed;
use crate::plays::Read;
use crate::seat::TurnSeat;
use crate::view::{Terms, TicketRule, View};
use atomic_table::Table;
use std::alloc::{AllocError, Global};
use std::marker::Brand;
use std::snapshot::Snapshot;
use std::sync::Wait;
use std::sync::atomic::AtomicU64;

pub(crate) const TICKET: usize = 0;

pub(crate) const SERVING: usize = 1;

pub(crate) const NEWS: usize = 2;

// The own number of the first seat.
const FIRST_NUMBER: u32 = 65535;

/// One value behind a ticket lock.
///
/// Who wants a turn draws the next number of TICKET, waits until SERVING has it, takes the value
/// out, and raises SERVING when it brings the value back. So turns are taken in the order of the
/// draws. TICKET is a sequencer and SERVING an eventcount (Reed and Kanodia, 1979); ticket locks
/// are surveyed by Mellor-Crummey and Scott (1991). NEWS is a second eventcount, which is read
/// without a turn.
///
/// A turn takes effect at the one step that raises SERVING: the list of the value that it brings
/// back is then the published history.
#[derive(Drop)]
pub struct Turn<V: Listed> {
    pub(crate) table: Table<Option<V>, View<V::Entry>, Terms<V>, TicketRule<V>, Global>,
    // How many threads sleep until SERVING is raised.
    pub(crate) sleepers: AtomicU64,
    ghost sized: { (table.shared.table_id.words ≡ 3) × (table.shared.table_id.slots ≡ 1) },
}

impl<V: Listed> Turn<V> {
    ghost use Rattle.std.specs.Prelude.{◌≡◌, ◌≢◌, ◌+◌, ◌-◌, ◌^◌, ◌<◌, ◌≤◌, ℕ, List, [], ◌∷◌};
    ghost use Rattle.std.specs.Prelude.{◌++◌, All, IfOk, IsOkAnd, true, false, length, drop};
    ghost use Rattle.ch_turn.specs.History.{IsPrefix, longer};
    ghost use Rattle.ch_turn.specs.Holdings.{entries_of, has_number, own_entries};
    ghost use Rattle.ch_turn.specs.Holdings.{with_entries, without_number};
    ghost use Rattle.ch_turn.specs.Seats.{HasAllNumbers, HasNumber, IsIdle, IsSeatOf, IsServed};
    ghost use Rattle.ch_turn.specs.Seats.{KnowsSame, SameSeat, first_value, holdings};
    ghost use Rattle.ch_turn.specs.Seats.{own_number, reads_of, seen_by, taken_by, turns_left};

    /// A turn round a value with an empty history, of which `turns` turns may be taken in all, and
    /// its first seat. The first seat holds all numbers below 65,536; its own is 65,535. Where
    /// there is no memory the value is dropped.
    pub fn new(alloc: Global, value: V, turns: u64) -> Result<(Turn<V>, TurnSeat<V>), AllocError>
    where
        V: Drop,
        requires room { turns ≤ 2 ^ 40 }
        requires empty { (V.list value ≡ []) × (V.news [] ≡ 0) }
        requires alike { V.alike value value }
        ensures first { IfOk result (λ r. first_value r.0 ≡ value) }
        ensures seat { IfOk result (λ r. IsIdle r.0 65535 r.1 × (turns_left r.1 ≡ turns)) }
        ensures numbers { IfOk result (λ r. HasAllNumbers r.1) }
        ensures blank { IfOk result (λ r. (seen_by r.1 ≡ []) × (reads_of r.1 ≡ [])
            × ((n : ℕ) → own_entries n (holdings r.1) ≡ [])) }
    {
        let first = Snapshot::of(&value);
        let mut slots = Vec::with_capacity(alloc, 1)?;
        slots.push(Some(value))?;
        let Ok((table, seat)) = Table::new(alloc, &[0, 0, 0], slots, &Terms { turns, first }) else {
            return Err(AllocError);
        };
        Ok((
            Turn {
                table,
                sleepers: AtomicU64::new(0),
            },
            TurnSeat {
                seat,
                own: FIRST_NUMBER,
                left: turns,
            },
        ))
    }

    /// Draws a ticket, waits until it is served, and takes the value, which stands for the
    /// published history.
    pub fn enter<R: Wait>(&self, rt: &R, seat: &mut TurnSeat<V>) -> V
        requires idle { IsIdle self.now (own_number seat.old) seat.old }
        requires turns { 0 < turns_left seat.old }
        ensures seat { IsServed self.now (own_number seat.old) seat.new }
        ensures taken { taken_by seat.new ≡ V.list result }
        ensures turns { turns_left seat.new + 1 ≡ turns_left seat.old }
        ensures knows { KnowsSame seat.old seat.new }

        // What the seat knew is of this history: it begins with what the seat has seen, its news
        // are no less than any that the seat read, and of the seat's numbers it has exactly the
        // entries that the seat knows.
        ensures seen { IsPrefix (seen_by seat.old) (V.list result) }
        ensures reads { All (λ r. r ≤ V.news (V.list result)) (reads_of seat.old) }
        ensures own { (n : ℕ) → HasNumber seat.old n → entries_of V.by n (V.list result)
            ≡ own_entries n (holdings seat.old) }
        ensures numbered { All (λ e. V.by e < 65536) (V.list result) }
        ensures alike { V.alike (first_value self.now) result }
    {
        let ticket = self.draw(&mut seat.seat);
        seat.left -= 1;
        self.take::<Brand, R>(rt, &mut seat.seat, ticket)
    }

    /// Brings the value back, and serves the next ticket. Its list is the one that was taken,
    /// followed by entries of this seat's own number.
    pub fn leave(&self, seat: &mut TurnSeat<V>, value: V, news: u64)
        requires served { IsServed self.now (own_number seat.old) seat.old }
        requires grows { (more : List V.Entry) × (V.list value ≡ taken_by seat.old ++ more)
            × All (λ e. V.by e ≡ own_number seat.old) more }
        requires news { news ≡ V.news (V.list value) }
        requires alike { V.alike (first_value self.now) value }
        ensures seat { IsIdle self.now (own_number seat.old) seat.new }
        ensures kept { (turns_left seat.new ≡ turns_left seat.old)
            × (reads_of seat.new ≡ reads_of seat.old) }
        ensures seen { seen_by seat.new ≡ V.list value }

        // The entries that were added are the seat's own, and nothing else of what it holds
        // changes.
        ensures holdings { holdings seat.new
            ≡ with_entries V.by (drop (length (taken_by seat.old)) (V.list value)) (holdings seat.old) }
        ensures own { own_entries (own_number seat.old) (holdings seat.new)
            ≡ own_entries (own_number seat.old) (holdings seat.old) ++ drop (length (taken_by seat.old)) (V.list value) }
        ensures others { (n : ℕ) → HasNumber seat.old n → HasNumber seat.new n
            × (n ≢ own_number seat.old → own_entries n (holdings seat.new)
            ≡ own_entries n (holdings seat.old)) }
    {
        self.give_back::<Brand>(&mut seat.seat, value, news);
        self.wake();
    }

    /// The news, by one load and without a turn. They may count already what the turn in progress
    /// adds.
    pub fn news(&self, seat: &mut TurnSeat<V>) -> u64
        requires seat { IsSeatOf self.now seat.old }
        ensures seat { SameSeat seat.old seat.new }
        ensures kept { (turns_left seat.new ≡ turns_left seat.old)
            × (seen_by seat.new ≡ seen_by seat.old) × (holdings seat.new ≡ holdings seat.old) }
        ensures read { reads_of seat.new ≡ reads_of seat.old ++ result ∷ [] }
        ensures rises { All (λ r. r ≤ result) (reads_of seat.old) }
        ensures news { (h : List V.Entry) × IsPrefix (seen_by seat.old) h × (result ≡ V.news h) }
    {
        self.table.shared.load::<Read>(&mut seat.seat, NEWS)
    }

    /// Hands the number and some turns over to a new seat, whose own number it is. A split takes no
    /// memory and is never refused.
    pub fn split(
        &self,
        _alloc: Global,
        seat: &mut TurnSeat<V>,
        number: u32,
        turns: u64,
    ) -> Result<TurnSeat<V>, AllocError>
        requires idle { IsIdle self.now (own_number seat.old) seat.old }
        requires number { (number < 65536) × (number ≢ own_number seat.old)
            × HasNumber seat.old number }
        requires turns { turns ≤ turns_left seat.old }

        ensures new { IsOkAnd result (λ r. IsIdle self.now number r × (turns_left r ≡ turns)) }
        ensures new_knows { IfOk result (λ r.
            (seen_by r ≡ seen_by seat.old) × (reads_of r ≡ [])
            × (holdings r ≡ (number, own_entries number (holdings seat.old)) ∷ [])) }

        ensures seat { IsIdle self.now (own_number seat.old) seat.new }
        ensures turns { turns_left seat.new + turns ≡ turns_left seat.old }
        ensures kept { (seen_by seat.new ≡ seen_by seat.old)
            × (reads_of seat.new ≡ reads_of seat.old) }
        ensures holdings { holdings seat.new ≡ without_number number (holdings seat.old) }
        ensures given { has_number number (holdings seat.new) ≡ false }
        ensures others { (n : ℕ) → HasNumber seat.old n → n ≢ number → HasNumber seat.new n
            × (own_entries n (holdings seat.new) ≡ own_entries n (holdings seat.old)) }
    {
        let other = self.cut::<Brand>(&mut seat.seat, number, turns);
        seat.left -= turns;
        Ok(TurnSeat {
            seat: other,
            own: number,
            left: turns,
        })
    }

    /// Takes the other seat in: its turns, its numbers with their entries, and its reads. The
    /// seat's own number stays.
    pub fn join(&self, seat: &mut TurnSeat<V>, other: TurnSeat<V>)
        requires idle { IsIdle self.now (own_number seat.old) seat.old }
        requires other { IsIdle self.now (own_number other) other }
        ensures seat { IsIdle self.now (own_number seat.old) seat.new }
        ensures turns { turns_left seat.new ≡ turns_left seat.old + turns_left other }
        ensures reads { reads_of seat.new ≡ reads_of seat.old ++ reads_of other }

        // One of the two histories seen begins the other, and the longer one stays.
        ensures longer { seen_by seat.new ≡ longer (seen_by seat.old) (seen_by other) }
        ensures prefixes { IsPrefix (seen_by seat.old) (seen_by seat.new)
            × IsPrefix (seen_by other) (seen_by seat.new) }

        ensures holdings { holdings seat.new ≡ holdings seat.old ++ holdings other }
        ensures ours { (n : ℕ) → HasNumber seat.old n → HasNumber seat.new n
            × (own_entries n (holdings seat.new) ≡ own_entries n (holdings seat.old)) }
        ensures theirs { (n : ℕ) → HasNumber other n → HasNumber seat.new n
            × (own_entries n (holdings seat.new) ≡ own_entries n (holdings other)) }
    {
        let TurnSeat {
            seat: theirs,
            own: _,
            left,
        } = other;
        self.gather(&mut seat.seat, theirs);
        seat.left += left;
    }

    /// Ends the turn and gives the value, which stands for the published history. The seat holds
    /// all numbers again, so there is no other one.
    pub fn close(self, seat: TurnSeat<V>) -> V
        requires idle { IsIdle self (own_number seat) seat }
        requires numbers { HasAllNumbers seat }
        ensures seen { IsPrefix (seen_by seat) (V.list result) }
        ensures reads { All (λ r. r ≤ V.news (V.list result)) (reads_of seat) }

        // Each entry carries one of the numbers, and stands in the seat's own entries of that
        // number.
        ensures numbered { All (λ e. V.by e < 65536) (V.list result) }
        ensures own { (n : ℕ) → n < 65536 → entries_of V.by n (V.list result)
            ≡ own_entries n (holdings seat) }
        ensures alike { V.alike (first_value self) result }
    {
        let TurnSeat {
            seat,
            own: _,
            left: _,
        } = seat;
        let Turn { table, sleepers: _ } = self;
        let mut closed = table.close_with(seat);
        let slot = closed.take(0);
        closed.free();
        let Some(value) = slot else { unreachable!() };
        value
    }
}
