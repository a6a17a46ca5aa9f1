//! What each update of a transcript did: what watches see of it, and the body of the reply to the request that it carried out.
//!
//! [`Effects`] is worked out in one pass over the lines, and of the lines that are no updates it keeps nothing but where the next
//! update stands. A look-up takes the logarithm of the number of updates.
#![tactic(auto)]

mod effects;

pub use effects::Effects;
