// One answer: each public call of the project, made twice with one input. What is proved of a call here comes from its contract alone,
// so a call's two results are equal only because its contract allows no other.
#![tactic(auto)]

mod calls;
mod conversions;
mod divisions;
mod exported;
mod parts;
