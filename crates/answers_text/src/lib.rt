// One answer, of the calls about text: each made twice with one input. What is proved of a call here comes from its contract alone.
#![tactic(auto)]

mod keeping;
mod reading;
mod writing;
