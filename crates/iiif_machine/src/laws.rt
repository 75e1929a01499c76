//! The laws of keys, plans and images, and of worlds and events. The functions compute nothing: their contracts are the laws.

ghost use Rattle.iiif_machine.specs.KeyLaws.{ItemsFit, ItemsMakeImage, KeysAreTold, NoPlanIsEmpty, PartsAreBelow, PartsFit, PartsMakeMeaning};
ghost use Rattle.iiif_machine.specs.KeyLaws.{PlansHaveItems, RefusedHasNoImage};
ghost use Rattle.iiif_machine.specs.Promises.{AllowedExactly, AnswersAreRight, CanonicalFormsAgree, EachRun, EachRunFollows, EachStep};
ghost use Rattle.iiif_machine.specs.Promises.{FirstFaultCounts, NoFaultIsTaken, NoFaultNoFailure, NoneWaitsForItself, NotKeptStays};
ghost use Rattle.iiif_machine.specs.Promises.{OneOutcome, OnlySourcesGive, OwnerIsTheRings, RefusedAtOnce, StopTakesAll, ValuesAreMeanings};
ghost use Rattle.iiif_machine.specs.Promises.{AllDecide, EarlyIsSame, FirstFaultDecides, WaitsFall};
ghost use Rattle.iiif_machine.specs.Origins.{EventsGive, FaultsHaveOrigins, FlightsBecomeReady, JoinsOpen};
ghost use Rattle.iiif_machine.specs.Frames.{AnswersHaveOrigins, AsksOwner, CallsHaveOrigins, EachCallStays, EachKeepsOthers, EachRequestStays};
ghost use Rattle.iiif_machine.specs.Frames.{EachStaysSettled, LandsBy, NewIsSettled};
ghost use Rattle.iiif_machine.specs.Headline.{EachRunIsRight, HeadlineImplies};
ghost use Rattle.iiif_machine.specs.Leaving.{EvictTakesEntries, KnowsAtItsEnd, StopTakesItsOwn};
ghost use Rattle.iiif_machine.specs.Worked.{AskIsServed, BothAreAnswered, BothStayAnswered, CutOutIs, DeepAskIsAnswered};
ghost use Rattle.iiif_machine.specs.Worked.{DeepAskIsNotServed, DeepHalvedIs, DeepIsNotWanted, EnlargedIs, EvictedFromBoth, FailingRead};
ghost use Rattle.iiif_machine.specs.Worked.{FaultIsNotKept, FaultOfAPeerIsNotAnswered, FirstFaultIsAnswered, FoundAgainIsAnswered};
ghost use Rattle.iiif_machine.specs.Worked.{FoundAgainIsCounted, HalvedIs, KeptIsFound, LateRepeatChangesNothing, LostAskIsAnswered};
ghost use Rattle.iiif_machine.specs.Worked.{NineAreNotKept, NoneIsAnsweredYet, NotAgain, NotKeptIsNotFound, ReplyOfAnotherKeyIsNotTaken};
ghost use Rattle.iiif_machine.specs.Worked.{ReplyToAStoppedFlightChangesNothing, SevenIsWanted, StoppedCallsAreGone, StoppedNode};
ghost use Rattle.iiif_machine.specs.Worked.{TenthIsKept, TwoShareAFault, TwoShareAValue, WaitsForItsCalls};
ghost use Rattle.iiif_machine.specs.Worked.{AnswersStayAtAStop, EvictionLeavesOthers, OwnersAreAsked, PeerValueIsCounted};
ghost use Rattle.iiif_machine.specs.Worked.{ThreeAreAnswered, TwoShareAThirdFault};
ghost use Rattle.iiif_machine.specs.Worked.{EarlyAnswerStays, EarlyFaultIsAnswered, EarlyFirstFaultIsAnswered, EarlyHalvedIs};
ghost use Rattle.iiif_machine.specs.Worked.{EarlyPartsFail, FirstFaultIsCertain, LateFaultWaits, LatePartsWait, UncertainFaultWaits};

/// So two keys may be compared by `key_eq`.
pub fn keys_are_told_apart()
    ensures { KeysAreTold }
{}

/// So a value may be made of the values of its parts, each of lower rank, of the same image, and naming something.
pub fn parts_make_the_meaning()
    ensures fit { PartsFit }
    ensures below { PartsAreBelow }
    ensures meaning { PartsMakeMeaning }
{}

/// So a request's image may be put together of the values of its plan's items.
pub fn items_make_the_image()
    ensures plan { PlansHaveItems }
    ensures some { NoPlanIsEmpty }
    ensures fit { ItemsFit }
    ensures image { ItemsMakeImage }
    ensures refused { RefusedHasNoImage }
{}

/// After every list of events that is allowed, the world is sound; each event, and each list of events, keeps it so, and takes
/// back nothing that was given or answered.
pub fn worlds_are_sound()
    ensures step { EachStep }
    ensures after { EachRunFollows }
    ensures run { EachRun }
{}

/// In a sound world an answered request has its image, its refusal, or a fault that was given, and a refused one is answered at
/// once; values that are kept, known or replied are their keys' meanings, and faults that are known were given. With no fault given
/// no answer is one, and only a failing read gives one.
pub fn sound_worlds_answer_right()
    ensures answers { AnswersAreRight }
    ensures refused { RefusedAtOnce }
    ensures canonical { CanonicalFormsAgree }
    ensures values { ValuesAreMeanings }
    ensures faults { NoFaultNoFailure }
    ensures given { OnlySourcesGive }
{}

/// Each wait goes to a smaller number, so no flight waits for itself over others; and calls of one flight know one outcome.
pub fn flights_are_in_order()
    ensures waits { WaitsFall }
    ensures circle { NoneWaitsForItself }
    ensures outcome { OneOutcome }
{}

/// In a sound world an event is allowed exactly where the table of events says so: no call, flight, ask or owner is missing.
pub fn events_are_allowed_exactly()
    ensures { AllowedExactly }
{}

/// Of several faults the first counts, in the order of a plan or of a sum's parts; no reply makes a flight fail; a landing that isn't
/// to be kept keeps nothing; a node that stops keeps no call, no open flight, no waiting request and no entry, and takes nothing of
/// another's; an eviction takes entries of its node alone; and a call knows what its flight has ended with, and nothing before.
pub fn events_change_no_more()
    ensures first { FirstFaultCounts }
    ensures taken { NoFaultIsTaken }
    ensures not_kept { NotKeptStays }
    ensures stopped { StopTakesAll }
    ensures others { StopTakesItsOwn }
    ensures evicted { EvictTakesEntries }
    ensures known { KnowsAtItsEnd }
{}

/// What comes of parts and of items is decided by what all their calls know. With faults early the first fault decides it as soon as each
/// call before it knows a value; where all know, it comes to the same.
pub fn faults_may_be_early()
    ensures all { AllDecide }
    ensures same { EarlyIsSame }
    ensures first { FirstFaultDecides }
{}

/// The owner that a node asks is the ring's.
pub fn the_owner_is_asked()
    ensures { OwnerIsTheRings }
{}

/// Worked lists of events, with their outcomes: the crossed rings, the failing read, the stopped node, 16 bits at a node of
/// version 1, and others.
pub fn worked_lists_compute()
    ensures waits_for_its_calls { WaitsForItsCalls }
    ensures kept_is_found { KeptIsFound }
    ensures not_kept_is_not_found { NotKeptIsNotFound }
    ensures failing_read { FailingRead }
    ensures not_again { NotAgain }
    ensures fault_is_not_kept { FaultIsNotKept }
    ensures two_share_a_value { TwoShareAValue }
    ensures two_share_a_fault { TwoShareAFault }
    ensures none_is_answered_yet { NoneIsAnsweredYet }
    ensures both_are_answered { BothAreAnswered }
    ensures late_repeat_changes_nothing { LateRepeatChangesNothing }
    ensures both_stay_answered { BothStayAnswered }
    ensures lost_ask_is_answered { LostAskIsAnswered }
    ensures fault_of_a_peer_is_not_answered { FaultOfAPeerIsNotAnswered }
    ensures stopped_node { StoppedNode }
    ensures reply_to_a_stopped_flight_changes_nothing { ReplyToAStoppedFlightChangesNothing }
    ensures stopped_calls_are_gone { StoppedCallsAreGone }
    ensures found_again_is_answered { FoundAgainIsAnswered }
    ensures found_again_is_counted { FoundAgainIsCounted }
    ensures halved_is { HalvedIs }
    ensures deep_halved_is { DeepHalvedIs }
    ensures enlarged_is { EnlargedIs }
    ensures cut_out_is { CutOutIs }
    ensures reply_of_another_key_is_not_taken { ReplyOfAnotherKeyIsNotTaken }
    ensures first_fault_is_answered { FirstFaultIsAnswered }
    ensures deep_ask_is_not_served { DeepAskIsNotServed }
    ensures deep_ask_is_answered { DeepAskIsAnswered }
    ensures ask_is_served { AskIsServed }
    ensures deep_is_not_wanted { DeepIsNotWanted }
    ensures seven_is_wanted { SevenIsWanted }
    ensures nine_are_not_kept { NineAreNotKept }
    ensures tenth_is_kept { TenthIsKept }
    ensures evicted_from_both { EvictedFromBoth }
    ensures answers_stay_at_a_stop { AnswersStayAtAStop }
    ensures two_share_a_third_fault { TwoShareAThirdFault }
    ensures owners_are_asked { OwnersAreAsked }
    ensures three_are_answered { ThreeAreAnswered }
    ensures peer_value_is_counted { PeerValueIsCounted }
    ensures eviction_leaves_others { EvictionLeavesOthers }
    ensures early_fault_is_answered { EarlyFaultIsAnswered }
    ensures late_fault_waits { LateFaultWaits }
    ensures uncertain_fault_waits { UncertainFaultWaits }
    ensures first_fault_is_certain { FirstFaultIsCertain }
    ensures early_answer_stays { EarlyAnswerStays }
    ensures early_parts_fail { EarlyPartsFail }
    ensures late_parts_wait { LatePartsWait }
    ensures early_halved_is { EarlyHalvedIs }
    ensures early_first_fault_is_answered { EarlyFirstFaultIsAnswered }
{}

/// A flight becomes ready by an event of its own, or with what its own local call knows; so it gets a fault only where its own read
/// fails, of its parts the first that is known, or its own call's. A call joins a flight that is open. Each fault that stands in a
/// world after a list of events stood there before, or was given by one of them.
pub fn outcomes_have_origins()
    ensures ready { FlightsBecomeReady }
    ensures faults { FaultsHaveOrigins }
    ensures joins { JoinsOpen }
    ensures given { EventsGive }
{}

/// A landing changes the table of its own node and key alone, by the outcome and the place with which its flight was ready. A flight
/// asks the node that owns its key on its own node's ring. A request's call and a part's are local exactly where their node owns the
/// key, and no event but Want, Load, GoLocal and Serve makes calls. A call that has entered stays as it is, or goes where its node stops;
/// so a request waits until it is answered. An answer is its request's refusal, or what the outcomes come to that all its calls know.
pub fn events_go_where_they_say()
    ensures lands { LandsBy }
    ensures asks { AsksOwner }
    ensures calls { CallsHaveOrigins }
    ensures entered { EachCallStays }
    ensures waiting { EachRequestStays }
    ensures answers { AnswersHaveOrigins }
{}

/// Where nothing is due, an event changes no row of another node than its own. In a new world nothing is due, and each event leaves
/// nothing due.
pub fn events_keep_others()
    ensures others { EachKeepsOthers }
    ensures new { NewIsSettled }
    ensures settled { EachStaysSettled }
{}

/// The headline: what holds after every list of events that is allowed.
pub fn each_run_is_right()
    ensures { EachRunIsRight }
{}

/// The corollaries, which follow from the headline alone.
pub fn headline_has_corollaries()
    ensures { HeadlineImplies }
{}
