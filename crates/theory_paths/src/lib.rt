// theory_paths: time-dependent paths, earliest arrivals, profiles and arc flags, over an abstract graph.
// Theory alone, no code; it calls nothing, and cites `theory_loops`. It knows no bytes and no rounding: a
// network file gives a `Graph`, and what is proved here then holds of it.
//   Graph     the definitions that every theorem is about: graph, path, driving, waiting, earliest arrival
//   Partition a graph whose nodes lie in cells
//   Drive     `later`, `waiting`, `driven_shift`: FIFO along a path, waiting never helps, whole periods shift
//   Simple    `shorten`, `arrive_bound`: a path of fewer arcs than nodes ends no later; when it ends at the
//             latest
//   Earliest  `earliest_unique`, `closed_exact`: labels closed below a bound are the earliest arrivals below
//             it
//   Labels    `labels_earliest`, `labels_never`: labels that compute, round by round
//   Hops      `hops_counted`: the fewest arcs that lead to a node and reach each of their nodes in time
//   Chosen    `chosen_is`, `chosen_unique`, `chosen_path`: the path that is told, of the fewest arcs, back
//             from the target by the lowest
//   Ties      `ties`: two graphs where other rules for ties would tell another path
//   Same      `chosen_same`, `chosen_traced`: the path is the same by any exact labels and hops
//   Agree     `earliest_agree`, `labels_agree`, `chosen_agree`: only the permitted arcs matter
//   Profiles  `profile_exact`, `toward_exact`: a profile is true exactly where it is right arc by arc
//   Flags     `arc_flags`, `arc_flags_reach`, `checked_exact`: flagged arcs are enough exactly where the
//             check says so
//   Least     `least_is`, `least_exactly`: least travels to a node, as numbers that compute
//   Settled   `settled_least`: numbers that are paths' and that no arc undercuts are the least travels
//   Queue     `queue_least`: they are worked out by taking nodes whose numbers fell, in any order
//   Planned   `starts_exactly`, `planned_enough`: the flags that a planner gives
#![tactic(auto)]
