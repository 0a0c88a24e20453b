//! The grammar of Java 17, which is kept for many texts.

use pj_base::NoMemory;
use pj_grammar::java_17;
use pj_parse::{ParseFault, Parsed, parse_by};
use pj_peg::WellFormed;
use pj_source::Source;
use std::alloc::Global;
use std::marker::Model;

/// The grammar of Java 17.
#[derive(Drop)]
pub struct Java {
    grammar: WellFormed,
}

impl Model for Java {
    ghost use Rattle.std.specs.Prelude.{◌≡◌};
    ghost use Rattle.pj_grammar.specs.Java17.{java_17_forms};
    ghost use Rattle.pj_peg_grammar.specs.Form.{forms_of};

    ghost Value = { Unit {0} };

    ghost view = { λ java. tt };

    ghost invariant = { λ java. forms_of java.grammar ≡ java_17_forms };
}

impl Java {
    /// The grammar.
    pub fn new(alloc: Global) -> Result<Java, NoMemory> {
        let grammar = java_17(alloc)?;
        Ok(Java { grammar })
    }

    /// The syntax tree of a text.
    pub fn parse<'s>(&self, alloc: Global, source: &'s Source) -> Result<Parsed<'s>, ParseFault> {
        parse_by(alloc, &self.grammar, source)
    }
}
