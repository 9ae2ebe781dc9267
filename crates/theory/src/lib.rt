// The theory of growth: its definitions stand in specs/, and each function's contract is a law of them.
#![tactic(auto)]

ghost use Rattle.theory.specs.Laws.{LaminarHolds, NodesShared, EdgeLoadsHold, InnerMoatsHold, AcceptedExactlyHolds, EndsInTimeHolds, SlackIsEven, NumbersStaySmall, DueTimesKept, LowerBoundAny, LowerBoundHolds, PlanIsATree, PruningEnds, PlanWithinTwice, PlanAgainstEveryTree, GrownTreeHangs, StrongPlanIsATree, StrongPlanBest, LawsHold};
ghost use Rattle.theory.specs.ByNumber.{StartByNumber, FormedByNumber, StepByNumber};
ghost use Rattle.theory.specs.Instances.{LawsNotEmpty};
ghost use Rattle.theory.specs.Worked.{WorkedNetworks};

// Any two clusters are nested or share no node.
pub fn laminar_holds()
    ensures { LaminarHolds }
{}

// Every node stands in just one maximal cluster.
pub fn nodes_are_shared()
    ensures { NodesShared }
{}

// No edge carries more than its doubled cost.
pub fn edge_loads_hold()
    ensures { EdgeLoadsHold }
{}

// No cluster's inner moats exceed its doubled prizes.
pub fn inner_moats_hold()
    ensures { InnerMoatsHold }
{}

// A step is accepted exactly while two or more maximal clusters are active.
pub fn accepted_exactly()
    ensures { AcceptedExactlyHolds }
{}

// Growth of n nodes, n at least 1, has ended after 2n - 2 accepted steps.
pub fn ends_in_time()
    ensures { EndsInTimeHolds }
{}

// The slack of an edge between two active maximal clusters is even.
pub fn slack_is_even()
    ensures { SlackIsEven }
{}

// Times, depths, moats and due times stay far below 2^63.
pub fn numbers_stay_small()
    ensures { NumbersStaySmall }
{}

// Between two steps only the due times at the event's clusters change.
pub fn due_times_kept()
    ensures { DueTimesKept }
{}

// Every tree costs at least the lower bound of any family that respects both limits.
pub fn lower_bound_of_any_family()
    ensures { LowerBoundAny }
{}

// Every tree's cost and lost prizes, doubled, are at least the lower bound.
pub fn lower_bound_holds()
    ensures { LowerBoundHolds }
{}

// What pruning leaves is a tree.
pub fn plan_is_a_tree()
    ensures { PlanIsATree }
{}

// Pruning goes on until no cluster is prunable.
pub fn pruning_ends()
    ensures { PruningEnds }
{}

// The plan's cost with twice its lost prizes is within the lower bound in half units.
pub fn plan_within_twice()
    ensures { PlanWithinTwice }
{}

// The plan's cost with twice its lost prizes is within twice the cost with lost prizes of every tree.
pub fn plan_against_every_tree()
    ensures { PlanAgainstEveryTree }
{}

// The grown tree hangs from its lowest-numbered node, and net worths satisfy their equation.
pub fn grown_tree_hangs()
    ensures { GrownTreeHangs }
{}

// The strong plan is a tree cut from the grown tree.
pub fn strong_plan_is_a_tree()
    ensures { StrongPlanIsATree }
{}

// No tree cut from the grown tree has a smaller cost with lost prizes than the strong plan.
pub fn strong_plan_best()
    ensures { StrongPlanBest }
{}

// All laws together, for every valid network and every number of steps.
pub fn laws_hold()
    ensures { LawsHold }
{}

// The worked networks come out as their table says.
pub fn worked_networks()
    ensures { WorkedNetworks }
{}

// The start, read by cluster number.
pub fn start_by_number()
    ensures { StartByNumber }
{}

// Every state, read by cluster number: parts, nodes and inner moats.
pub fn formed_by_number()
    ensures { FormedByNumber }
{}

// A step, read by cluster number: what changes and what stays.
pub fn step_by_number()
    ensures { StepByNumber }
{}

// The laws' hypotheses are met by a worked network.
pub fn laws_not_empty()
    ensures { LawsNotEmpty }
{}
