//! What an evaluator asks of a file.

ghost use Rattle.std.specs.Prelude.{◌≡◌};
ghost use Rattle.pj_parse.specs.Parses.{file_parsed};
ghost use Rattle.pj_properties.specs.OneFile.{IsOneFile};
ghost use Rattle.pj_attrs.specs.FileFacts.{facts_of};

use crate::modifiers::{effective_modifiers, explicit_modifiers};
use crate::names::attribute_names;
use crate::values::attribute;
use pj_parse::Parsed;
use pj_source::Source;
use pj_symbols::Symbols;
use pj_tree::{Node, Place};
use pj_xvalue::{Attributes, Modifiers, Value};
use std::marker::Model;

/// The attributes, modifiers and places of a parsed file.
#[derive(Drop)]
pub struct Facts<'t> {
    source: &'t Source,
    parsed: &'t Parsed<'t>,
    symbols: &'t Symbols,
}

impl<'t> Model for Facts<'t> {
    ghost use Rattle.std.specs.Prelude.{◌≡◌};
    ghost use Rattle.pj_parse.specs.Parses.{file_parsed};
    ghost use Rattle.pj_properties.specs.OneFile.{IsOneFile};
    ghost use Rattle.pj_attrs.specs.FileFacts.{FileFacts};

    ghost Value = { FileFacts };

    ghost view = { λ f. record { source = f.source.now; file = file_parsed f.parsed.now } };

    ghost invariant = { λ f. IsOneFile f.parsed.now f.symbols.now × (f.parsed.now.tree.text ≡ f.source.now.text) };
}

impl<'t> Facts<'t> {
    /// The facts of a file: of its source, what parsing gave of that, and the declarations of the tree.
    pub fn new(source: &'t Source, parsed: &'t Parsed<'t>, symbols: &'t Symbols) -> Facts<'t>
        requires one_file { IsOneFile parsed.now symbols.now }
        requires text { parsed.now.tree.text ≡ source.now.text }
        ensures { result ≡ facts_of source.now (file_parsed parsed.now) }
    {
        Facts {
            source,
            parsed,
            symbols,
        }
    }
}

impl Attributes for Facts<'_> {
    ghost use Rattle.std.specs.Prelude.{length};
    ghost use Rattle.pj_attrs.specs.FileFacts.{attribute_in, names_at, modifiers_at, place_in};
    ghost use Rattle.pj_attrs.specs.Laws.{attribute_typed, names_are_few, names_are_different, names_are_all};

    ghost nodes = { λ facts. length facts.file.tree.nodes };

    ghost text_length = { λ facts. length facts.source.text };

    ghost attribute_of = { attribute_in };

    ghost names_of = { names_at };

    ghost modifiers_of = { modifiers_at };

    ghost place_of = { place_in };

    ghost attribute_kind = { attribute_typed };

    ghost names_few = { names_are_few };

    ghost names_differ = { names_are_different };

    ghost names_complete = { names_are_all };

    fn attribute(&self, n: Node, name: &str) -> Option<Value<'_>> {
        attribute(self.parsed, self.symbols, n, name)
    }

    fn names(&self, n: Node) -> &'static [&'static str] {
        attribute_names(self.parsed.tree.kind(n))
    }

    fn modifiers(&self, n: Node, effective: bool) -> Modifiers {
        if effective {
            effective_modifiers(self.parsed, n)
        } else {
            explicit_modifiers(self.parsed, n)
        }
    }

    fn place(&self, offset: u32) -> Place {
        self.source.place(offset)
    }
}
