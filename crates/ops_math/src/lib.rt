//! The value operators: each reads the places at its left and at its right, and writes below.
#![tactic(auto)]

mod add;
mod clock;
mod delay;
mod if_equal;
mod increment;
mod lerp;
mod lesser;
mod multiply;
mod ports;
mod random;
mod subtract;
mod uclid;

pub use add::Add;
pub use clock::Clock;
pub use delay::Delay;
pub use if_equal::IfEqual;
pub use increment::Increment;
pub use lerp::Lerp;
pub use lesser::Lesser;
pub use multiply::Multiply;
pub use random::Random;
pub use subtract::Subtract;
pub use uclid::Uclid;
