// Laws of the definitions, and of what a server keeps. No code calls these functions.
ghost use Rattle.std.specs.Prelude.{◌≡◌, ℕ, false, List, Option, Some};
ghost use Rattle.lo_base.specs.declared.request.Request.{Request as Line};
ghost use Rattle.lo_model.specs.Opening.{Opening};
ghost use Rattle.lo_opening.specs.Meaning.{opening_of};
ghost use Rattle.lo_opening.specs.Opening.{IsOpening, OpeningData};
ghost use Rattle.lo_machine.specs.declared.server.Server.{Server};
ghost use Rattle.lo_machine.specs.Server.{IsServer, StandsFor, KeepsViews};
ghost use Rattle.lo_machine.specs.Committed.{committed_opening};
ghost use Rattle.lo_machine.specs.Fitting.{AreRanged, HasKeptRanges, IsFit, IsFitOpening};
ghost use Rattle.lo_machine.specs.Replies.{HasArrayTexts};
ghost use Rattle.lo_machine.specs.Replay.{Play, moment_of};
ghost use Rattle.lo_machine.specs.Run.{IsOrderOf, IsWholeFrom, end_from, schedule_from, start, start_from, start_of};
ghost use Rattle.lo_machine.specs.Served.{ArePlain, AreServed, IsServed};
ghost use Rattle.lo_machine.specs.State.{State};
ghost use Rattle.lo_machine.specs.Step.{reply_to, state_after};
ghost use Rattle.lo_machine.specs.SweepLaw.{CommitsWhole, ComesFrom, EndsAtRun, IsAlone, IsSweepOf, IsSweeping, KeepsHistory, RemovesInRun, ReportsAtEnd, Sweeping, is_stopped};
ghost use Rattle.orphan_sweep.specs.History.{History};
ghost use Rattle.lo_machine.specs.Well.{IsWell};

/// The schedule of an order of some programs is whole, from every opening. No code runs.
pub fn orders_are_whole()
    ensures { (opening : Opening) (programs : List (List Line)) (order : List ℕ) →
        IsOrderOf programs order → IsWholeFrom programs (start_from opening)
        (schedule_from programs (start_from opening) order) }
{}

/// Where no request is one of a clean-up, each line takes one advance. No code runs.
pub fn plain_lines_take_one_advance()
    ensures { (opening : Opening) (programs : List (List Line)) (order : List ℕ) →
        ArePlain programs → schedule_from programs (start_from opening) order ≡ order }
{}

/// The views that a server's transactions keep are those that each state keeps for which it stands: that of what is
/// committed, of each session with a block its own and the one below each of its levels, and those that open descriptors
/// read in. So a reclamation leaves what these read. No code runs.
pub fn kept_views_are_the_states()
    ensures { (e : Server) (st : State) → IsServer e → StandsFor e st → KeepsViews e st }
{}

/// Each text in a reply is an array's, whatever state and request it is of. No code runs.
pub fn texts_are_arrays()
    ensures { (st : State) (session : ℕ) (request : Line) →
        HasArrayTexts (reply_to st session request) }
{}

/// The database stays such as an opening of it can be. It is so at the beginning, also where that is an opening's; a request
/// whose numbers and bytes have the ranges of their types keeps it so, and so does a whole run; and the opening of what is
/// committed has rows that fit their tables, with a plan, and objects of a size. No code runs.
pub fn databases_stay_fit()
    ensures begins { IsFit start.state }
    ensures stays { (st : State) (s : ℕ) (request : Line) → IsServed request →
        HasKeptRanges request → IsWell st → IsFit st → IsFit (state_after st s request) }
    ensures runs { (programs : List (List Line)) (schedule : List ℕ) →
        AreServed programs → AreRanged programs → IsFit (end_from programs start schedule).state }
    ensures resumes { (opening : Opening) → IsFitOpening opening → IsFit (start_of opening).state }
    ensures opens { (st : State) (blocks : ℕ) →
        IsWell st → IsFit st → IsFitOpening (committed_opening blocks st) }
{}

/// A run that begins with an opening has what the opening has: committed at once it is the same opening. No code runs.
pub fn openings_come_back()
    ensures { (d : OpeningData) → IsOpening d →
        committed_opening d.blocks (start_from (opening_of d)).state ≡ opening_of d }
{}

/// What a clean-up of orphans does, over every schedule of all sessions. In a run it was begun by its session's last granted
/// `vacuumlo`. Each act was the one that the answers before it called for, and was answered by what it did. At its report it
/// has removed the numbers of its list that no scan found, each once, in groups of at most the limit; in a dry run none; and
/// it tells how many. One that was refused an unlink has undone that group, and tells how many the groups before it have.
/// Each group is committed whole, at one clock. Then the objects that a scan found are still there, where no other session
/// unlinked them, and those of the rest are gone but for those made again. One that is alone is never stopped: where no other
/// session had a transaction block at its `vacuumlo` and each advance since then was an act of it, nothing is refused. No code
/// runs.
pub fn sweeps_remove_what_no_scan_found()
    ensures begun { (play : Play) (session : ℕ) (h : History) →
        ((moment_of play).state.players session).sweep ≡ Some h → ComesFrom play session h }
    ensures runs { (play : Play) (w : Sweeping) → IsSweepOf play w → EndsAtRun play w }
    ensures told { (w : Sweeping) → IsSweeping w → KeepsHistory w }
    ensures reported { (w : Sweeping) (line : Line) → IsSweeping w → ReportsAtEnd w line }
    ensures whole { (w : Sweeping) → IsSweeping w → CommitsWhole w }
    ensures removes { (play : Play) (w : Sweeping) → RemovesInRun play w }
    ensures alone { (play : Play) (w : Sweeping) →
        IsSweepOf play w → IsAlone w → is_stopped w ≡ false }
{}
