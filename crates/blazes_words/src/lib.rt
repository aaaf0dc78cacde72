//! What the words of a command line ask for.
#![tactic(auto)]

mod numbers;
mod words;

pub use words::{
    MakeWords, Request, RunFiles, ShardWords, SoakWords, WhyWords, WitnessFiles, request_of,
};
