//! Class files (JVMS 4): a class from its bytes, or the first fault that they have.
#![tactic(auto)]

mod answer;
mod attribute;
mod class;
mod fault;
mod laws;
mod lookup;
mod member;
mod modified_utf8;
mod passed;
mod pool;
mod texts;

pub use answer::answer_of;
pub use class::parse;
pub use fault::ClassRefused;
pub use laws::{folders_are_a_world, one_answer, one_class, texts_are_decoded};
