//! Laws of legal histories, each carried by a function without arguments that does nothing.

ghost use Rattle.std.specs.Prelude.{◌≡◌, ℕ, ◌*◌, ◌≤◌, ◌++◌, List, Some, filter, length, true};
ghost use Rattle.ch_grid.specs.Grid.{sizes};
ghost use Rattle.ch_grid.specs.Points.{count};
ghost use Rattle.ch_rank.specs.Growth.{Keeps};
ghost use Rattle.ch_session.specs.declared.event.Event.{Event};
ghost use Rattle.ch_session.specs.declared.event.Event.TheVariants.{Claim, Fetch};
ghost use Rattle.ch_session.specs.Growth.{seat_of};
ghost use Rattle.ch_session.specs.History.{Theme, game, is_claimed_by, is_held_by};
ghost use Rattle.ch_session.specs.History.{is_legal, news, version_now};
ghost use Rattle.ch_session.specs.Laws.{AllBelow, ClaimedOnce, IsLastBy, NoneBy};
ghost use Rattle.ch_session.specs.Laws.{OneClaimant, OneLease, is_claim};

/// Each beginning of a legal history is legal.
pub fn beginnings_are_legal()
    ensures { (theme : Theme) (history more : List Event) → is_legal theme (history ++ more) ≡ true
        → is_legal theme history ≡ true }
{}

/// In a legal history no trial is claimed twice, and none by two builders.
pub fn trials_are_claimed_once()
    ensures once { (theme : Theme) (history : List Event) → is_legal theme history ≡ true
        → ClaimedOnce history }
    ensures one_builder { (theme : Theme) (history : List Event) → is_legal theme history ≡ true
        → OneClaimant history }
{}

/// A trial that a client holds, or that a builder claimed, stays so until an event of that client's
/// or builder's own seat.
pub fn leases_and_claims_stay()
    ensures held { (theme : Theme) (history more : List Event) (client trial : ℕ)
        → is_legal theme (history ++ more) ≡ true → NoneBy client more
        → is_held_by theme history client trial ≡ true
        → is_held_by theme (history ++ more) client trial ≡ true }
    ensures claimed { (theme : Theme) (history more : List Event) (builder trial : ℕ)
        → is_legal theme (history ++ more) ≡ true → NoneBy (seat_of builder) more
        → is_claimed_by theme history builder trial ≡ true
        → is_claimed_by theme (history ++ more) builder trial ≡ true }
{}

/// In a legal history a client holds the trial that its seat's last event fetched, and a builder
/// has claimed the one that its seat's last event claimed. So neither is refused what it does next
/// with it.
pub fn last_events_decide()
    ensures held { (theme : Theme) (history : List Event) (client trial version : ℕ)
        → is_legal theme history ≡ true
        → IsLastBy client (Fetch client (Some trial) version) history
        → is_held_by theme history client trial ≡ true }
    ensures claimed { (theme : Theme) (history : List Event) (builder trial : ℕ)
        → is_legal theme history ≡ true
        → IsLastBy (seat_of builder) (Claim builder trial) history
        → is_claimed_by theme history builder trial ≡ true }
{}

/// In a legal history a client holds at most one trial.
pub fn clients_hold_one_trial()
    ensures { (theme : Theme) (history : List Event) → is_legal theme history ≡ true
        → OneLease theme history }
{}

/// In a legal history each trial that is named is below the number of the grid's points, and there
/// are no more claims than points: so a builder that has two turns for each point can build them
/// all.
pub fn trials_are_few()
    ensures below { (theme : Theme) (history : List Event) → is_legal theme history ≡ true
        → AllBelow (count (sizes theme.grid)) history }
    ensures claims { (theme : Theme) (history : List Event) → is_legal theme history ≡ true
        → length (filter is_claim history) ≤ count (sizes theme.grid) }
{}

/// As a legal history goes on, each trial keeps its point.
pub fn points_stay()
    ensures { (theme : Theme) (history more : List Event) → is_legal theme (history ++ more) ≡ true
        → Keeps (game theme history).points (game theme (history ++ more)).points }
{}

/// News never fall, and in a legal history they are at least twice the versions.
pub fn news_never_fall()
    ensures grow { (history more : List Event) → news history ≤ news (history ++ more) }
    ensures twice { (theme : Theme) (history : List Event) → is_legal theme history ≡ true
        → 2 * version_now theme history ≤ news history }
{}
