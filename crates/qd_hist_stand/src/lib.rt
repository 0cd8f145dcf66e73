//! What a stripe of the history keeps, and for which pasts it stands after each step.
//!
//! There is no code here: `specs/Stripes.antt` says what is kept and for which moments that stands, `specs/Steps.antt` what each step
//! leaves of it, and the laws below that the stripe then stands for the moment with the step's act.
#![tactic(auto)]

pub mod laws;
