// What a run of the governor's calls promises. No code: specs/ has the promises as statements, to be read without their proofs, and
// proofs/Promises.antt is the list of theorems, one for each. The statements, and the files of proofs/ behind them:
//
//   Runs         what a run is: a table that start accepts, any calls of tick, the accepted ones as steps   (RunLaws, StartLaws)
//   NeverLate    demand 3: at each release the previous job is over; the step, for any speed that carries the load
//                (a tick, by the step that the crate ontime proves: PlainCourse; a run: Invariant, OnTimeProof)
//   ExactCycles  demand 3: each job has exactly its cycles, by the grants and entries of its window
//                (one tick: SettledPlaces, Portions, StepPlaces; a run: Windows, ExactProof)
//   TurnedAway   demand 3: where start answers 8, every way to run the table starves a job   (Starves)
//   PaperTest    demand 2: Figures 1 and 4, the lowest speed, the earliest deadline   (Fractions, NowTells)
//   PaperLoad    demand 2: Figure 4's uses over a run: the load by the reports since each release   (UseWindows, LoadProof)
//   Counts       demand 2: every count is drawn from the grants   (Tallies, TallyEnergy, CutWindows, TallyCuts, CountsProof)
//   StaysSound   a run never meets 9 or 12, and goes on to its last tick   (GoesOn, SoundRuns)
//   EitherSide   document 01's table (a) to (l)   (EitherSideRows)
//
// The laws of sums over places are those of ontime (Sums). That each call has one answer is proved in the crate answers.
#![tactic(auto)]
