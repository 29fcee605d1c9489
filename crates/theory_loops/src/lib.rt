// theory_loops: the shapes that loops have, with their laws. Theory alone, no code, and it calls nothing.
//   specs/First.antt   the first index that fails a test
//   specs/Pick.antt    a ladder of tests, each answered by an early return
//   specs/Triple.antt  the first of three indices that fail a test
//   specs/Fill.antt    a part of a lent list is written, the rest stays
//   specs/Stores.antt  values stored one after the other
//   specs/Total.antt   a running sum
//   specs/Select.antt  the indices that pass a test, listed
//   specs/Count.antt   how many pass
//   specs/Grid.antt    numbers in rows of one width in one list
//   specs/Joined.antt  lists one behind the other
// A file of a loop's shape has a ruleset: `search` with it closes most needs of such a loop.
#![tactic(auto)]
