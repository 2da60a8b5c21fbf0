//! Why a call is refused: the thirty refusals, what a fault tells of one, and
//! the stops of sources and sinks from which some of them come.
#![tactic(auto)]

pub mod fault;
pub mod refusal;
pub mod stop;
