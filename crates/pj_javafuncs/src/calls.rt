//! PMD's functions over a Java file.
ghost use Rattle.std.specs.Prelude.{◌≡◌, length};
ghost use Rattle.pj_exprtypes.specs.Table.{KeepsOver};
ghost use Rattle.pj_javafuncs.specs.OneProof.{keeps_prop};

use crate::replies::reply;
use crate::setting::Setting;
use pj_base::Text;
use pj_exprtypes::Typed;
use pj_file_oracle::FileOracle;
use pj_names::Oracle;
use pj_tree::Node;
use pj_xexpressions::PmdFunction;
use pj_xvalue::{Arguments, Attributes, Calls, Sequence, XFault};
use std::alloc::Global;

/// PMD's functions over the nodes of a Java file.
///
/// Classes are asked of the oracle of the file. Types that were found are held, each with the names that its definition asks, and asked again by them: so one
/// table serves all rules of a file, and each rule asks the names of its own.
#[derive(Drop)]
pub struct JavaCalls<'a, 'f, O: Oracle, A: Attributes> {
    /// The oracle of the file.
    pub oracle: FileOracle<'a, 'f, O>,
    /// The types of the file that were found so far.
    pub types: &'a mut Typed,
    /// The attributes, modifiers and places of the file's nodes.
    pub facts: &'a A,
    /// The file's path.
    pub path: &'a Text,
    pub ghost keeps: { KeepsOver oracle.file.now (O.tells oracle.inner.now) types.now.entries } by { keeps_prop oracle.file.now (O.tells oracle.inner.now) types.now.entries },
    pub ghost of_tree: { A.nodes facts.now ≡ length oracle.file.now.nodes },
    pub ghost text: { A.text_length facts.now ≡ length oracle.file.now.text },
}

impl<'a, 'f, O: Oracle, A: Attributes> JavaCalls<'a, 'f, O, A> {
    /// The functions over a file, by its oracle, with the types that are held of it, its facts and its path. It takes no memory.
    pub fn new(
        oracle: FileOracle<'a, 'f, O>,
        types: &'a mut Typed,
        facts: &'a A,
        path: &'a Text,
    ) -> JavaCalls<'a, 'f, O, A>
        requires keeps { KeepsOver oracle.file.now (O.tells oracle.inner.now) types.old.entries }
        requires of_tree { A.nodes facts.now ≡ length oracle.file.now.nodes }
        requires text { A.text_length facts.now ≡ length oracle.file.now.text }
        ensures oracle { result.oracle ≡ oracle.entry }
        ensures table { result.types.now ≡ types.old }
        ensures same_table { result.types.ghost_name ≡ types.entry.ghost_name }
        ensures facts { result.facts.now ≡ facts.now }
        ensures path { result.path.now ≡ path.now }
    {
        JavaCalls {
            oracle,
            types,
            facts,
            path,
        }
    }
}

impl<'a, 'f, O: Oracle, A: Attributes> Calls for JavaCalls<'a, 'f, O, A> {
    ghost use Rattle.std.specs.Prelude.{length};
    ghost use Rattle.pj_names.specs.Expand.{expand};
    ghost use Rattle.pj_names.specs.Told.{Over};
    ghost use Rattle.pj_file_oracle.specs.FileAnswer.{file_answer};
    ghost use Rattle.pj_javafuncs.specs.Facts.{facts as known};
    ghost use Rattle.pj_javafuncs.specs.ReplyKinds.{reply_kinds};
    ghost use Rattle.pj_javafuncs.specs.Replies.{reply as replied};
    ghost use Rattle.pj_javafuncs.specs.Telling.{CallsOwn, tells_calls};

    ghost nodes = { λ calls. length calls.oracle.file.now.nodes };

    ghost Kept = { Over CallsOwn O.Kept };

    ghost tells = { λ calls. tells_calls calls.oracle.inner.ghost_name (record { tree = calls.oracle.file.now; held = calls.oracle.held.ghost_name; types = calls.types.ghost_name }) (O.tells calls.oracle.inner.now) };

    ghost reply = { λ calls function at arguments. expand (file_answer calls.oracle.file.now) (replied (known (A.attribute_of calls.facts.now) (A.names_of calls.facts.now) (A.modifiers_of calls.facts.now) (A.place_of calls.facts.now) calls.path.now) calls.oracle.file.now function at arguments) };

    ghost reply_kind = { λ calls function at arguments told given inside count depth far. reply_kinds (known (A.attribute_of calls.facts.now) (A.names_of calls.facts.now) (A.modifiers_of calls.facts.now) (A.place_of calls.facts.now) calls.path.now) calls.oracle.file.now function at arguments depth ((O.tells calls.oracle.inner.now).world depth) };

    fn pmd(
        &mut self,
        alloc: Global,
        function: PmdFunction,
        at: Option<Node>,
        arguments: &Arguments<'_>,
    ) -> Result<Sequence<'static>, XFault> {
        let setting = Setting {
            alloc,
            facts: self.facts,
            path: self.path,
        };
        reply(
            &setting,
            &mut self.oracle,
            &mut *self.types,
            function,
            at,
            arguments,
        )
    }
}
