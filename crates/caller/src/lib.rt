// A caller of the governor, as docs/RATTLE-API.md prints it. What is proved here of a call comes from its contract alone.
#![tactic(auto, using(crate::proofs::Defaults::state_or_given, crate::proofs::Defaults::energy_or_zero), unfolding(rules::specs::Calls::told_by, rules::specs::Choice::task_of))]

mod head;
