//! The markup of ruleset files: elements with attributes and text.
//!
//! `read` gives the elements of a text by a grammar of its own, a part of XML without document types and namespaces, or the
//! first place at which the text is no markup.
#![tactic(auto)]

mod around;
mod attributes;
mod characters;
mod element;
mod laws;
mod markup;
mod reader;
mod reading;
mod state;
mod steps;

pub use element::Element;
pub use laws::one_reading;
pub use markup::Markup;
pub use reading::{MarkupFault, read};
