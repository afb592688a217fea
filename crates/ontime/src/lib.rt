// Never late, for tasks released at any tick and due at most a period later: the step that every kind of run repeats. No code: specs/OnTime.antt has the
// statements, over a course (tasks, jobs, the places that hold one, a tick, and when each job is due) and not over a state, and
// proofs/Theorems.antt is the list of theorems, one for each. The statements, and the files of proofs/ behind them:
//
//   AnyTickPays        a tick that keeps rule 4, at a speed that carries the load wherever a job is ready: every job that is due at the next
//                      tick is over, and for every d what is owed by d has room from then on
//                      (one job: OneJob; the jobs due by d come first: Levels; the whole order: Pays)
//   ReleasesKeep       releases, tasks that go and tasks that join keep that room   (SamePlaces, GoesOnProof)
//   AnyMultipleWillDo  so does a change of H to a multiple of it, and back   (SamePlaces, Multiples)
//
// Sums has the laws of sums over places.
#![tactic(auto)]
