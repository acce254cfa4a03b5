//! Laws of conduct and of reports, each carried by a function without arguments that does nothing.

ghost use Rattle.std.specs.Prelude.{◌≡◌, ◌≢◌, ◌<◌, ◌≤◌, ◌++◌, ◌∷◌, ℕ, Bool, List, [], Option, Some, None, length, map, slice_get, true};
ghost use Rattle.ch_turn.specs.History.{IsPrefix};
ghost use Rattle.ch_nest.specs.CostModel.{CostModel};
ghost use Rattle.ch_session.specs.declared.event.Event.{Event};
ghost use Rattle.ch_session.specs.declared.event.Event.TheVariants.{Claim};
ghost use Rattle.ch_session.specs.History.{Theme, claim_gives, holds, is_legal};
ghost use Rattle.ch_report.specs.declared.part.SessionPart.{SessionPart};
ghost use Rattle.ch_conduct.specs.declared.report.How.{How};
ghost use Rattle.ch_conduct.specs.declared.report.ClientPart.{ClientPart};
ghost use Rattle.ch_conduct.specs.declared.report.RunReport.{RunReport};
ghost use Rattle.ch_workload.specs.declared.client.Script.{Script};
ghost use Rattle.ch_conduct.specs.Meaning.{Judge, Meaning, Task};
ghost use Rattle.ch_conduct.specs.Places.{events_by, point};
ghost use Rattle.ch_conduct.specs.Conduct.{BuilderConduct, Builds, Conduct, Conducted, build_event};
ghost use Rattle.ch_conduct.specs.Lines.{Each, last_line, lines_on};
ghost use Rattle.ch_conduct.specs.Fits.{Fits, HasParts, HasStores, IsSearched, cells_after};
ghost use Rattle.ch_conduct.specs.Lived.{Lived, SessionLived, lines_of};
ghost use Rattle.ch_conduct.specs.Solo.{part_of, solo};
ghost use Rattle.ch_conduct.specs.Turns.{Called, IsKnown, Knowledge, TookTurn};
ghost use Rattle.ch_conduct.specs.Gathered.{Gathered};

/// What was a client's or a builder's conduct in a history is its conduct in every longer legal
/// one.
pub fn conduct_lasts()
    ensures client { (theme : Theme) (judge : Judge) (h k : List Event) → IsPrefix h k
        → is_legal theme k ≡ true
        → (client : ℕ) (patient : Bool) (machine : CostModel)
        (lines : List (ℕ × How)) (reads : List ℕ)
        → Conduct theme judge client patient machine h lines (events_by client h) reads
        → Conduct theme judge client patient machine k lines (events_by client h) reads }
    ensures builder { (theme : Theme) (judge : Judge) (h k : List Event) → IsPrefix h k
        → is_legal theme k ≡ true → (builder : ℕ)
        → BuilderConduct theme judge builder h (events_by builder h)
        → BuilderConduct theme judge builder k (events_by builder h) }
{}

/// A client that has conducted itself so far and makes one call more has conducted itself so far.
/// After a turn that adds nothing, as its leave does, this is the conduct of a client that has
/// ended.
pub fn calls_add_up()
    ensures more { (theme : Theme) (judge : Judge) (client : ℕ) (patient : Bool)
        (machine : CostModel) (lines : List (ℕ × How)) (call : ℕ) (how : How)
        (s z : Knowledge) → IsKnown theme client s
        → Conducted theme judge client patient machine s.seen lines s.own s.reads
        → Called theme judge client patient machine (last_line lines) call how s z
        → Conducted theme judge client patient machine z.seen (lines ++ (call, how) ∷ [])
        z.own z.reads }
    ensures end { (theme : Theme) (judge : Judge) (client : ℕ) (patient : Bool)
        (machine : CostModel) (lines : List (ℕ × How)) (h : List Event)
        (s z : Knowledge) → IsKnown theme client s
        → Conducted theme judge client patient machine s.seen lines s.own s.reads
        → TookTurn theme client s z h []
        → Conduct theme judge client patient machine z.seen lines z.own z.reads }
{}

/// A client that has conducted itself so far holds no trial in any history in which it has no
/// further event. So its leave adds none.
pub fn clients_hold_nothing()
    ensures { (theme : Theme) (judge : Judge) (client : ℕ) (patient : Bool) (machine : CostModel)
        (seen h : List Event) (lines : List (ℕ × How)) (own : List Event) (reads : List ℕ)
        → Conducted theme judge client patient machine seen lines own reads
        → events_by client h ≡ own → holds theme h client ≡ None }
{}

/// A builder that makes one job more, a claim and its build, has still built what it claimed. Where
/// its claim then meets no open trial, this is the conduct of a builder that has ended.
pub fn jobs_add_up()
    ensures more { (theme : Theme) (judge : Judge) (builder trial : ℕ) (at : List ℕ)
        (s y z : Knowledge) (h k : List Event) → IsKnown theme builder s
        → Builds theme judge builder s.seen s.own
        → TookTurn theme builder s y h (Claim builder trial ∷ [])
        → claim_gives theme h ≡ Some trial → at ≡ point theme h trial
        → TookTurn theme builder y z k (build_event builder trial (judge.refusal at) ∷ [])
        → Builds theme judge builder z.seen z.own }
    ensures end { (theme : Theme) (judge : Judge) (builder : ℕ) (s z : Knowledge) (h : List Event)
        → IsKnown theme builder s → Builds theme judge builder s.seen s.own
        → TookTurn theme builder s z h [] → claim_gives theme h ≡ None
        → BuilderConduct theme judge builder z.seen z.own }
{}

/// One call more runs its program once more on the client's arrays, and leaves those of other
/// programs as they are.
pub fn cells_add_up()
    ensures called { (m : Meaning) (client : ℕ) (runs : List ℕ) (program : ℕ)
        → cells_after m client (runs ++ program ∷ []) program
        ≡ m.run program (cells_after m client runs program) }
    ensures others { (m : Meaning) (client : ℕ) (runs : List ℕ) (program other : ℕ)
        → other ≢ program
        → cells_after m client (runs ++ program ∷ []) other ≡ cells_after m client runs other }
{}

/// Where each client and builder conducted itself in what its seat had seen of a closed history,
/// the part that shows the entries of this history has it behind it.
pub fn closed_sessions_are_lived()
    ensures { (m : Meaning) (builders : ℕ) (report : RunReport) (n : ℕ) (task : Task)
        (part : SessionPart) (h : List Event)
        → part.entries ≡ lines_of (point task.theme h) h → Gathered m builders report n task h
        → SessionLived m builders report n task part }
{}

/// A report with the deck's parts and stores, each of whose sessions shows the search on its
/// entries, fits the deck where it has a history behind it.
pub fn lived_reports_fit()
    ensures { (m : Meaning) (builders : ℕ) (report : RunReport) → HasParts m report
        → HasStores m report
        → Each (λ n task part. IsSearched task.theme part) 0 m.tasks report.sessions
        → Lived m builders report → Fits m report }
{}

/// Where no builder works and no other client calls a session, its history and a client's lines
/// there are what `solo` computes. A part is always that of its history.
pub fn lone_sessions_are_solo()
    ensures lines { (m : Meaning) (report : RunReport) (n : ℕ) (task : Task) (part : SessionPart)
        (lived : SessionLived m 0 report n task part) (client : ℕ) (script : Script)
        (own : ClientPart)
        → slice_get m.clients client ≡ Some script → slice_get report.clients client ≡ Some own
        → ((other : ℕ) (p : ClientPart) → slice_get report.clients other ≡ Some p
        → other ≢ client → lines_on n p.calls ≡ [])
        → solo task.theme task.judge client script.patient script.machine
        (map (λ l. l.0) (lines_on n own.calls))
        ≡ record { history = lived.history; lines = lines_on n own.calls } }
    ensures part { (m : Meaning) (builders : ℕ) (report : RunReport) (n : ℕ) (task : Task)
        (part : SessionPart) (lived : SessionLived m builders report n task part)
        → IsSearched task.theme part
        → part ≡ part_of task.theme lived.history }
{}
