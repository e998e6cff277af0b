// The theorems on orders, times and pairs, each the contract of a function that computes nothing: a caller, or a
// reader of the check, has the statement by it. `specs/Theorems.antt` has the statements.
ghost use Rattle.std.specs.Prelude.{ℕ, ◌≤◌, List};
ghost use Rattle.events.specs.declared.event.Event.{Event};
ghost use Rattle.orders.specs.Theorems.{SmallestOrders, RulesMeanOrders, StampsAreTimes, PairsAreFound, AlikeTracesAgree, FewerPairs, LaterEventsChangeNothing, WorkedRunsHold};

// Any relation between positions, for what is said of all of them.
pub trait Relates {
    ghost relates: { ℕ → ℕ → Type 0 };
}

// One of them: the order of the positions themselves.
pub struct TraceOrder;

impl Relates for TraceOrder {
    ghost relates = { λ i j. i ≤ j };
}

// A rule's order and orders 1 and 2 are the smallest partial orders that contain their edges.
#[tactic(auto, using(crate::proofs::Closures::smallest_orders))]
pub fn orders_are_smallest<E: Relates, R: Relates>()
    ensures { SmallestOrders E.Relates.relates R.Relates.relates }
{}

// On accepted traces rule 1 means order 1, and rule 2 means order 2.
#[tactic(auto, using(crate::proofs::Locks::rules_mean_orders))]
pub fn rules_mean_orders()
    ensures { RulesMeanOrders }
{}

// Rows of a bank hold the times of events, and times tell the order.
#[tactic(auto, using(crate::proofs::Times::stamps_are_times))]
pub fn stamps_are_times<R: Relates>()
    ensures { StampsAreTimes R.Relates.relates }
{}

// Comparing local times with stamps finds the pairs, all of them, in the order of the list.
#[tactic(auto, using(crate::proofs::Found::pairs_are_found))]
pub fn pairs_are_found<R: Relates>()
    ensures { PairsAreFound R.Relates.relates }
{}

// Two traces of one behaviour have one order, the same times and the same pairs.
#[tactic(auto, using(crate::proofs::AlikeOrders::alike_traces_agree))]
pub fn alike_traces_agree()
    ensures { AlikeTracesAgree }
{}

// Order 2 relates all that order 1 relates, and so has no pair that order 1 has not.
#[tactic(auto, using(crate::proofs::Locks::fewer_pairs))]
pub fn order_2_has_fewer_pairs()
    ensures { FewerPairs }
{}

// What holds of a trace's events does not depend on what follows.
#[tactic(auto, using(crate::proofs::Prefixes::later_events))]
pub fn later_events_change_nothing()
    ensures { (log more : List Event) → LaterEventsChangeNothing log more }
{}

// The worked runs have the times and pairs that they state.
#[tactic(auto, using(crate::proofs::WorkedRuns::worked_runs_hold))]
pub fn worked_runs_hold()
    ensures { WorkedRunsHold }
{}
