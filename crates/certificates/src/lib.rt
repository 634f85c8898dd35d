//! Certificates of how a place of a tree of tokens gets its value: what they hold, and the one text that spells each.
//!
//! A certificate is lines of text: the permutation, the place that is explained, a line for each reference that leads from one
//! place to another, and the place where they end. It is printed and read here. Whether it holds of a tree is not asked here.
#![tactic(auto)]

mod certificate;
mod cut;
mod escape;
mod front;
mod printing;
mod reading;
mod string;

pub use certificate::{Cert, Hop, Hops, Named, Spot};
pub use printing::print_cert;
pub use reading::{CertStop, read_cert};
