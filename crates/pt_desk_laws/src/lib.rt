//! What follows from the rules for whole lists of requests. Each law is a public function with an empty body, and its
//! contract is the theorem.
#![tactic(auto)]

ghost use Rattle.pt_desk_laws.specs.Again.{ReadsAreTheSameAgain, RequestsAreTheSameAgain};
ghost use Rattle.pt_desk_rules.specs.Booking.{HasRoutes};
ghost use Rattle.pt_desk_laws.specs.Laws.{DenialsAreRight, OutcomesOfSoundStatesAreSound};
ghost use Rattle.pt_desk_laws.specs.Laws.{PlansMadeAreOnDuty, PlansStayOnDuty};
ghost use Rattle.pt_desk_laws.specs.Numbers.{AcceptedNumbersRise, AcceptedWritesAreKept, LastAcceptedIsKept};
ghost use Rattle.pt_desk_laws.specs.Numbers.{AcceptedWritesMakeTheState};
ghost use Rattle.pt_desk_laws.specs.Numbers.{DenialsAreTheSameAgain, RepeatsAreToldTheSame, WritesMayBeSentAgain};
ghost use Rattle.pt_desk_laws.specs.One.{OutcomesAreOne, RequestsOutliveCrashes};
ghost use Rattle.pt_desk_laws.specs.Privacy.{LettersArePrivate, StandingsArePrivate, TripsArePrivate};
ghost use Rattle.pt_desk_rules.specs.Sound.{IsSound};
ghost use Rattle.pt_desk_rules.specs.State.{State};
ghost use Rattle.pt_desk_rules.specs.Tours.{HasTours, PlansAreOnDuty, ShowStandingTrips};

/// A law: in a sound state the vehicles of every day have routes. So the rule that a denial names is the first of all
/// rules to fail.
pub fn sound_states_have_routes()
    ensures { (s : State) → IsSound s → HasRoutes s }
{}

/// A law: a request in a sound state leaves a sound state.
pub fn outcomes_of_sound_states_are_sound()
    ensures { OutcomesOfSoundStatesAreSound }
{}

/// A law: in a sound state a new write that is denied is denied by the first of all its rules to fail. If it asks for a
/// trip, these are its own rules and then those of a booking.
pub fn denials_are_right()
    ensures { DenialsAreRight }
{}

/// A law: in a sound state whose plans are of vehicles on duty, every vehicle that has stops on a day has its tour on
/// the manifest.
pub fn sound_states_have_tours()
    ensures { (s : State) → IsSound s → PlansAreOnDuty s → HasTours s }
{}

/// A law: if the plans of a sound state are of vehicles on duty, they still are after any request.
pub fn plans_stay_on_duty()
    ensures { PlansStayOnDuty }
{}

/// A law: whatever is asked from a sound state without plans on, each plan that is made is of a vehicle on duty.
pub fn plans_made_are_on_duty()
    ensures { PlansMadeAreOnDuty }
{}

/// A law: in a sound state a manifest shows only stops of trips in its vehicle on its day that are not cancelled.
pub fn manifests_show_standing_trips()
    ensures { (s : State) → IsSound s → ShowStandingTrips s }
{}

/// A law: the answer about a rider's trips depends only on the caller, the rider's record and the rider's trips.
pub fn trips_are_private()
    ensures { TripsArePrivate }
{}

/// A law: a letter to a rider depends only on the caller, the rider's record and the rider's case file.
pub fn letters_are_private()
    ensures { LettersArePrivate }
{}

/// A law: what a rider's standing is depends only on the caller, the rider's record and case file, and the days that a
/// visitor has used.
pub fn standings_are_private()
    ensures { StandingsArePrivate }
{}

/// A law: an accepted write is stored as its caller's last one, and its number is above the earlier one's.
pub fn accepted_writes_are_kept()
    ensures { AcceptedWritesAreKept }
{}

/// A law: a caller's last accepted write, sent again, gets its first reply and changes nothing.
pub fn repeats_are_told_the_same()
    ensures { RepeatsAreToldTheSame }
{}

/// A law: the numbers of a caller's accepted writes rise.
pub fn accepted_numbers_rise()
    ensures { AcceptedNumbersRise }
{}

/// A law: a caller's kept request is its last accepted write.
pub fn last_accepted_is_kept()
    ensures { LastAcceptedIsKept }
{}

/// A law: the accepted writes alone, each made once, leave the same state as all calls. Reads, denials and repeats
/// leave no trace.
pub fn accepted_writes_make_the_state()
    ensures { AcceptedWritesMakeTheState }
{}

/// A law: a caller who does not know whether a write was accepted may send it again, under any key that is still the
/// caller's. Nothing happens twice.
pub fn writes_may_be_sent_again()
    ensures { WritesMayBeSentAgain }
{}

/// A law: a request that is denied, and comes again with nothing between, is denied by the same rule.
pub fn denials_are_the_same_again()
    ensures { DenialsAreTheSameAgain }
{}

/// A law: a read that comes again at the same moment, with nothing between, gets the same answer.
pub fn reads_are_the_same_again()
    ensures { ReadsAreTheSameAgain }
{}

/// A law: any request that comes again at the same moment, with nothing between, gets the same reply and changes
/// nothing. If it gave its own caller another key, nobody has the old key any longer.
pub fn requests_are_the_same_again()
    ensures { RequestsAreTheSameAgain }
{}

/// A law: a call has at most one outcome in a sound state. The rules determine each answer, including the place and the
/// window of a trip.
pub fn outcomes_are_one()
    ensures { OutcomesAreOne }
{}

/// A law: a request that is sent again after a crash, at the same moment, gets the same reply and leaves the same
/// state. This holds whether the crash lost it or not. If it gave its own caller another key before the crash, it must
/// come with that key.
pub fn requests_outlive_crashes()
    ensures { RequestsOutliveCrashes }
{}
