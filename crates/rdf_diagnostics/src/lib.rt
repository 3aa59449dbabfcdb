//! What stands at the place of a refusal, what may have caused it, and its line with a caret under the place.
#![tactic(auto)]

mod bad_escape;
mod causes;
mod excerpt;
mod sight;
mod signs;

pub use causes::{Cause, advice, cause_of};
pub use excerpt::put_excerpt;
pub use sight::{Sight, sight_of};
