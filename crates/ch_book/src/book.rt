use crate::seat::Seat;
use ch_session::{Built, ClaimError, Event, Fetched, Job, Made, NotClaimed, NotLeased, Session};
use ch_turn::{Listed, Turn};
use std::alloc::{AllocError, Global};
use std::sync::Wait;

/// A session behind turns.
#[derive(Drop)]
pub struct Book<V: Made + Drop>
where
    Session<V>: Listed<Entry = Event>,
{
    pub(crate) turn: Turn<Session<V>>,
}

impl<V: Made + Drop> Book<V> {
    ghost use Rattle.std.specs.Prelude.{◌≡◌, ◌≢◌, ◌+◌, ◌^◌, ◌<◌, ◌≤◌, ◌++◌, ◌∷◌, [], ◌⊎◌};
    ghost use Rattle.std.specs.Prelude.{ℕ, List, All, IfOk, IsOk, Some, is_some, true};
    ghost use Rattle.ch_turn.specs.History.{IsPrefix, longer};
    ghost use Rattle.ch_turn.specs.Holdings.{entries_of, own_entries, without_number};
    ghost use Rattle.ch_session.specs.History.{game, holds, is_legal, news, trials};
    ghost use Rattle.ch_rank.specs.Search.{point_at};
    ghost use Rattle.ch_session.specs.Growth.{by};
    ghost use Rattle.ch_session.specs.Replies.{ClaimReply, added_by_claim, FetchReply};
    ghost use Rattle.ch_session.specs.Replies.{added_by_fetch, ReportReply};
    ghost use Rattle.ch_session.specs.Replies.{added_by_report, BuiltFits, BuiltReply};
    ghost use Rattle.ch_session.specs.Replies.{added_by_built, added_by_leave};
    ghost use Rattle.ch_session.specs.declared.event.Event.{Event};
    ghost use Rattle.ch_session.specs.declared.event.Event.TheVariants.{Claim, Fetch};
    ghost use Rattle.ch_book.specs.Books.{IsLastOwn, IsOf, IsTurn, Holds, HoldsAll, first_of};
    ghost use Rattle.ch_book.specs.Books.{number_of, left_of, owns, reads, seen, with_events};

    /// Claims the least open trial, by one turn. It takes the memory that `built` will need.
    pub fn claim<R: Wait>(
        &self,
        rt: &R,
        alloc: Global,
        seat: &mut Seat<V>,
        builder: u32,
    ) -> Result<Job, ClaimError>
        requires seat { IsOf self.now (number_of seat.old) seat.old }
        requires left { 0 < left_of seat.old }
        requires number { number_of seat.old < 200 }
        requires builder { (builder ≡ number_of seat.old) ⊎ (builder ≡ 200 + number_of seat.old) }
        ensures turn { (h : List Event)
            × IsTurn self.now seat.old seat.new h (added_by_claim builder result)
            × ClaimReply (with_events self.now h) result }
        // The job's number and point are those that the seat has seen, as `built` wants them.
        ensures job { IfOk result (λ j. (j.trial < trials (first_of self.now).theme (seen seat.new))
            × (j.point ≡ point_at (game (first_of self.now).theme (seen seat.new)) j.trial)) }
    {
        let mut session = self.turn.enter(rt, &mut seat.seat);
        let job = session.claim(alloc, builder);
        session.known();
        let news = session.news();
        self.turn.leave(&mut seat.seat, session, news);
        job
    }

    /// Leases a trial to the client or gives it the current version, by one turn. It takes the
    /// memory that `report` or `leave` will need.
    pub fn fetch<R: Wait>(
        &self,
        rt: &R,
        alloc: Global,
        seat: &mut Seat<V>,
        client: u32,
    ) -> Result<Fetched<V>, AllocError>
        requires seat { IsOf self.now (number_of seat.old) seat.old }
        requires left { 0 < left_of seat.old }
        requires number { number_of seat.old < 200 }
        requires client { client ≡ number_of seat.old }
        ensures turn { (h : List Event)
            × IsTurn self.now seat.old seat.new h (added_by_fetch client result)
            × FetchReply V.made (with_events self.now h) client result }
    {
        let mut session = self.turn.enter(rt, &mut seat.seat);
        let reply = session.fetch(alloc, client);
        session.known();
        let news = session.news();
        self.turn.leave(&mut seat.seat, session, news);
        reply
    }

    /// Takes the cost that the client measured of the trial that it holds, by one turn without
    /// memory.
    pub fn report<R: Wait>(
        &self,
        rt: &R,
        seat: &mut Seat<V>,
        client: u32,
        trial: u32,
        call: u32,
        cost: u64,
    ) -> Result<(), NotLeased>
        requires seat { IsOf self.now (number_of seat.old) seat.old }
        requires left { 0 < left_of seat.old }
        requires number { number_of seat.old < 200 }
        requires client { client ≡ number_of seat.old }
        // What the seat's last event fetched is still leased to it, so its report isn't refused.
        ensures taken { IsLastOwn (Fetch client (Some trial) 0) seat.old → IsOk result }
        ensures turn { (h : List Event)
            × IsTurn self.now seat.old seat.new h (added_by_report (with_events self.now h) client trial call cost result)
            × ReportReply (with_events self.now h) client trial result }
    {
        // It tells that the seat holds its own number.
        let _ = seat.number();
        let mut session = self.turn.enter(rt, &mut seat.seat);
        session.known();
        let reply = session.report(client, trial, call, cost);
        session.known();
        let news = session.news();
        self.turn.leave(&mut seat.seat, session, news);
        reply
    }

    /// Ends the client's lease, if it has one, by one turn without memory.
    pub fn leave<R: Wait>(&self, rt: &R, seat: &mut Seat<V>, client: u32) -> bool
        requires seat { IsOf self.now (number_of seat.old) seat.old }
        requires left { 0 < left_of seat.old }
        requires number { number_of seat.old < 200 }
        requires client { client ≡ number_of seat.old }
        ensures turn { (h : List Event)
            × IsTurn self.now seat.old seat.new h (added_by_leave (with_events self.now h) client)
            × (result ≡ is_some (holds (with_events self.now h).theme h client)) }
    {
        let mut session = self.turn.enter(rt, &mut seat.seat);
        let reply = session.leave(client);
        session.known();
        let news = session.news();
        self.turn.leave(&mut seat.seat, session, news);
        reply
    }

    /// Records what came of a build, by one turn without memory.
    pub fn built<R: Wait>(
        &self,
        rt: &R,
        seat: &mut Seat<V>,
        builder: u32,
        trial: u32,
        outcome: Built<V>,
    ) -> Result<(), NotClaimed>
        requires seat { IsOf self.now (number_of seat.old) seat.old }
        requires left { 0 < left_of seat.old }
        requires number { number_of seat.old < 200 }
        requires builder { (builder ≡ number_of seat.old) ⊎ (builder ≡ 200 + number_of seat.old) }
        requires trial { trial < trials (first_of self.now).theme (seen seat.old) }
        requires made { BuiltFits V.made (with_events self.now (seen seat.old)) trial outcome }
        // What the seat's last event claimed is still claimed by it, so its build isn't refused.
        ensures taken { IsLastOwn (Claim builder trial) seat.old → IsOk result }
        ensures turn { (h : List Event)
            × IsTurn self.now seat.old seat.new h (added_by_built builder trial outcome result)
            × BuiltReply (with_events self.now h) builder trial result }
    {
        // It tells that the seat holds its own number.
        let _ = seat.number();
        let mut session = self.turn.enter(rt, &mut seat.seat);
        session.known();
        let reply = session.built(builder, trial, outcome);
        session.known();
        let news = session.news();
        self.turn.leave(&mut seat.seat, session, news);
        reply
    }

    /// The news of a history that begins with what the seat has seen, by one load: without a turn,
    /// without waiting and without memory.
    pub fn news(&self, seat: &mut Seat<V>) -> u64
        requires seat { IsOf self.now (number_of seat.old) seat.old }
        ensures seat { IsOf self.now (number_of seat.old) seat.new }
        ensures kept { (left_of seat.new ≡ left_of seat.old) × (seen seat.new ≡ seen seat.old)
            × (owns seat.new ≡ owns seat.old) }
        ensures read { reads seat.new ≡ reads seat.old ++ result ∷ [] }
        ensures rises { All (λ r. r ≤ result) (reads seat.old) }
        ensures news { (h : List Event) × IsPrefix (seen seat.old) h × (result ≡ news h) }
    {
        self.turn.news(&mut seat.seat)
    }

    /// Hands the number and some turns over to a new seat, whose own number it is.
    pub fn split(
        &self,
        alloc: Global,
        seat: &mut Seat<V>,
        number: u32,
        turns: u64,
    ) -> Result<Seat<V>, AllocError>
        requires seat { IsOf self.now (number_of seat.old) seat.old }
        requires number { (number < 65536) × (number ≢ number_of seat.old) × Holds seat.old number }
        requires turns { turns ≤ left_of seat.old }
        ensures new { IfOk result (λ r. IsOf self.now number r × (left_of r ≡ turns)
            × (seen r ≡ seen seat.old) × (reads r ≡ [])
            × (owns r ≡ (number, own_entries number (owns seat.old)) ∷ [])) }
        ensures never { IsOk result }
        ensures seat { IsOf self.now (number_of seat.old) seat.new }
        ensures turns { left_of seat.new + turns ≡ left_of seat.old }
        ensures kept { (seen seat.new ≡ seen seat.old) × (reads seat.new ≡ reads seat.old) }
        ensures owns { owns seat.new ≡ without_number number (owns seat.old) }
        ensures others { (n : ℕ) → Holds seat.old n → n ≢ number
            → Holds seat.new n × (own_entries n (owns seat.new) ≡ own_entries n (owns seat.old)) }
    {
        let other = self.turn.split(alloc, &mut seat.seat, number, turns)?;
        Ok(Seat { seat: other })
    }

    /// Takes the other seat in: its turns, its numbers with their events, and its reads.
    pub fn join(&self, seat: &mut Seat<V>, other: Seat<V>)
        requires seat { IsOf self.now (number_of seat.old) seat.old }
        requires other { IsOf self.now (number_of other) other }
        ensures seat { IsOf self.now (number_of seat.old) seat.new }
        ensures turns { left_of seat.new ≡ left_of seat.old + left_of other }
        ensures reads { reads seat.new ≡ reads seat.old ++ reads other }
        ensures longer { seen seat.new ≡ longer (seen seat.old) (seen other) }
        ensures prefixes { IsPrefix (seen seat.old) (seen seat.new)
            × IsPrefix (seen other) (seen seat.new) }
        ensures owns { owns seat.new ≡ owns seat.old ++ owns other }
        ensures ours { (n : ℕ) → Holds seat.old n
            → Holds seat.new n × (own_entries n (owns seat.new) ≡ own_entries n (owns seat.old)) }
        ensures theirs { (n : ℕ) → Holds other n
            → Holds seat.new n × (own_entries n (owns seat.new) ≡ own_entries n (owns other)) }
    {
        let Seat { seat: theirs } = other;
        self.turn.join(&mut seat.seat, theirs);
    }

    /// Ends the book and gives its session, once the seat holds all numbers again.
    pub fn close(self, seat: Seat<V>) -> Session<V>
        requires seat { IsOf self (number_of seat) seat }
        requires numbers { HoldsAll seat }
        ensures session { result ≡ with_events self result.events }
        ensures legal { is_legal result.theme result.events ≡ true }
        ensures seen { IsPrefix (seen seat) result.events }
        ensures reads { All (λ r. r ≤ news result.events) (reads seat) }
        ensures marked { All (λ e. by e < 65536) result.events }
        ensures own { (n : ℕ) → n < 65536
            → entries_of by n result.events ≡ own_entries n (owns seat) }
    {
        let Book { turn } = self;
        let Seat { seat } = seat;
        let session = turn.close(seat);
        session.known();
        session
    }

    /// A book round a session without events, of which so many turns may be taken in all, and its
    /// first seat, which holds all numbers below 65,536.
    pub fn start(
        alloc: Global,
        session: Session<V>,
        turns: u64,
    ) -> Result<(Book<V>, Seat<V>), AllocError>
        requires room { turns ≤ 2 ^ 40 }
        requires empty { session.events ≡ [] }
        ensures book { IfOk result (λ r. first_of r.0 ≡ session) }
        ensures seat { IfOk result (λ r. IsOf r.0 65535 r.1 × (left_of r.1 ≡ turns)) }
        ensures numbers { IfOk result (λ r. HoldsAll r.1) }
        ensures blank { IfOk result (λ r. (seen r.1 ≡ []) × (reads r.1 ≡ [])
            × ((n : ℕ) → own_entries n (owns r.1) ≡ [])) }
    {
        let (turn, seat) = Turn::new(alloc, session, turns)?;
        Ok((Book { turn }, Seat { seat }))
    }
}
