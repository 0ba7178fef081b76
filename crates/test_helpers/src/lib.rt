//! For tests: what ends a failed test, what tests run at, and the comparisons that many of them
//! make. A test makes a [`Test`], tells it of each check whether it held, and ends with its result.
#![tactic(auto)]

mod frames;
mod hash;
mod lent;
mod requests;
mod steps;
mod values;
mod walks;

pub use hash::{Constant, ZERO};
pub use lent::{filled, lend, lend_made, test_on_new, test_on_share};
pub use requests::requests_until_enough;
pub use steps::{Checked, Failed, Test, expect_text};
pub use values::{ASCENDING, SHUFFLED, is_compared, is_copied, is_shown, next_random};
pub use walks::{B, End, F, Plain, Step, copied, gives, taken, walk_difference};
