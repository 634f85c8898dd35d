//! The types of values that are made of values of other kinds (Design Tokens Format Module 2025.10,
//! composite types), and with them what a value without references is under each of the thirteen
//! kinds, or the first rule that it breaks and the steps to the part that breaks it.
#![tactic(auto)]

mod border;
mod gradient;
mod laws;
mod shadow;
mod stroke;
mod transition;
mod typed;
mod typography;

pub use border::Border;
pub use gradient::{ColorStop, Stops};
pub use laws::{part_laws, value_laws, word_laws};
pub use shadow::{ShadowItem, Shadows};
pub use stroke::{Cap, Sizes, Stroke, StrokeWord};
pub use transition::Transition;
pub use typed::{Typed, check};
pub use typography::Typography;
