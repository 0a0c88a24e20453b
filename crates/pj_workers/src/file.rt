//! What rules of a set come to in a file.
ghost use Rattle.std.specs.Prelude.{◌≡◌, ◌<◌, Ok, IfOk, length};
ghost use Rattle.std.specs.List.{All, AllByRecursion};
ghost use Rattle.std.specs.Str.{IsUtf8};
ghost use Rattle.pj_grammar.specs.Java17.{java_17_forms};
ghost use Rattle.pj_parse.specs.FileOutcome.{outcome_of};
ghost use Rattle.pj_parse.specs.Parses.{Parses, file_parsed};
ghost use Rattle.pj_parse.specs.PoolText.{IsPoolOf, pool_of};
ghost use Rattle.pj_parse.specs.Refused.{file_seen as java_file_seen};
ghost use Rattle.pj_peg_grammar.specs.Form.{forms_of};
ghost use Rattle.pj_symbols.specs.Names.{package_name};
ghost use Rattle.pj_workers.specs.Views.{AreRunsOf, AsksOf, IsErrorOf, IsOfOneFile, file_seen};

use crate::result::FileRuns;
use crate::runs::rule_runs;
use crate::view::FileView;
use pj_attrs::{Facts, tokens_are_in_order};
use pj_base::{Bytes, NoMemory, Text};
use pj_declared::Declarations;
use pj_findings::RuleRuns;
use pj_lex::Token;
use pj_names::{AskFault, Oracle};
use pj_outer_names::File;
use pj_parse::{
    FileFault, FileRefused, Parsed, fault_message, file_has_one_outcome, parse_file_by, read_file,
};
use pj_peg::WellFormed;
use pj_reports::Head;
use pj_rule_sets::RuleSet;
use pj_source::Source;
use pj_suppress::marks;
use pj_symbols::Symbols;
use std::alloc::Global;

/// The head of a file of the package of this name.
fn package_head(alloc: Global, name: &str) -> Result<Head, NoMemory>
    ensures { IfOk result (λ head. head ≡ Head.Package name.now) }
{
    Ok(Head::Package(Text::from_str(alloc, name)?))
}

/// What is said of a file of which this is seen, and what the rules of these numbers come to in it.
fn view_runs<'t, O: Oracle>(
    file: &'t FileView<'t>,
    java: &'t File<'_>,
    rules: &'t RuleSet,
    which: &[u32],
    name: &str,
    oracle: &mut O,
) -> Result<FileRuns, AskFault>
    requires file { IsOfOneFile file.now }
    requires java { java.now ≡ (file_seen file.now).tree }
    requires marker { file.now.marker.now ≡ rules.now.marker }
    requires name { name.now ≡ package_name (file_seen file.now).tree }
    requires numbers { All (λ number. number < length rules.now.rules) which.now }
    ensures asks { AsksOf rules.now which.now file.now.path.now (Ok (file_seen file.now)) (O.tells oracle.old) (O.tells oracle.new) result }
    ensures runs { IfOk result (AreRunsOf rules.now which.now file.now.path.now (Ok (file_seen file.now)) (O.tells oracle.old)) }
{
    let head = package_head(file.alloc, name)?;
    let runs = rule_runs(file, java, rules.rules().as_slice(), which, oracle)?;
    Ok(FileRuns { head, runs })
}

/// The text of a token.
fn text_of<'s>(token: &Token<'s>) -> &'s str
    ensures { result.now ≡ token.now.text.now }
{
    token.text
}

/// The texts of tokens are UTF-8, as every text is. The call does nothing: its contract is the law.
fn tokens_are_texts(tokens: &[Token<'_>])
    ensures { AllByRecursion (λ token. IsUtf8 token.text.now) tokens.now }
{
    for token in tokens {
        let _ = text_of(token);
    }
}

/// The same of a file that was parsed.
fn parsed_runs<'t, O: Oracle>(
    alloc: Global,
    path: &'t Text,
    source: &'t Source,
    parsed: &'t Parsed<'t>,
    rules: &'t RuleSet,
    which: &[u32],
    oracle: &mut O,
) -> Result<FileRuns, AskFault>
    requires parses { Parses source.now.text (Ok (file_parsed parsed.now)) }
    requires text { parsed.now.tree.text ≡ source.now.text }
    requires pool { parsed.now.pool ≡ pool_of parsed.now.tree }
    requires pool_texts { IsPoolOf parsed.now.tree parsed.now.pool }
    requires numbers { All (λ number. number < length rules.now.rules) which.now }
    ensures asks { AsksOf rules.now which.now path.now (Ok (java_file_seen source.now parsed.now)) (O.tells oracle.old) (O.tells oracle.new) result }
    ensures runs { IfOk result (AreRunsOf rules.now which.now path.now (Ok (java_file_seen source.now parsed.now)) (O.tells oracle.old)) }
{
    tokens_are_in_order(source.text(), parsed);
    tokens_are_texts(parsed.tokens.as_slice());
    let symbols = Symbols::of(alloc, &parsed.tree)?;
    let declarations = Declarations::of(alloc, &parsed.tree)?;
    let java = File::new(alloc, &parsed.tree, &symbols, &declarations)?;
    let facts = Facts::new(source, parsed, &symbols);
    let marker = rules.marker();
    let marked = marks(alloc, source, &parsed.tokens, marker)?;
    let file = FileView {
        alloc,
        path,
        tree: &parsed.tree,
        facts: &facts,
        marker,
        marked: &marked,
    };
    view_runs(&file, &java, rules, which, symbols.package_name(), oracle)
}

/// What is said of a file with this fault: no rule comes to anything.
fn fault_runs(alloc: Global, fault: FileFault) -> Result<FileRuns, NoMemory>
    ensures { IfOk result (IsErrorOf (FileRefused.Fault fault)) }
{
    let message = fault_message(alloc, fault)?;
    Ok(FileRuns {
        head: Head::Message(message),
        runs: RuleRuns::new(alloc),
    })
}

/// The same of a file that was refused so.
fn refused_runs(alloc: Global, refused: FileRefused) -> Result<FileRuns, NoMemory>
    ensures { IfOk result (IsErrorOf refused) }
{
    match refused {
        FileRefused::Fault(fault) => fault_runs(alloc, fault),
        FileRefused::Memory => Err(NoMemory),
    }
}

/// The most bytes that a file may have: the offsets into it are of 32 bits.
const MOST_BYTES: usize = 4_294_967_294;

/// What is said of a file of these bytes, and what the rules of these numbers come to in it. More than `MOST_BYTES` want memory.
pub fn bytes_runs<O: Oracle>(
    alloc: Global,
    grammar: &WellFormed,
    path: &Text,
    bytes: &Bytes,
    rules: &RuleSet,
    which: &[u32],
    oracle: &mut O,
) -> Result<FileRuns, AskFault>
    requires grammar { forms_of grammar.now ≡ java_17_forms }
    requires numbers { All (λ number. number < length rules.now.rules) which.now }
    ensures asks { AsksOf rules.now which.now path.now (outcome_of bytes.now) (O.tells oracle.old) (O.tells oracle.new) result }
    ensures runs { IfOk result (AreRunsOf rules.now which.now path.now (outcome_of bytes.now) (O.tells oracle.old)) }
{
    file_has_one_outcome();
    if bytes.len() > MOST_BYTES {
        return Err(AskFault::Memory);
    }
    let source = match read_file(alloc, bytes.as_slice()) {
        Ok(source) => source,
        Err(refused) => return Ok(refused_runs(alloc, refused)?),
    };
    match parse_file_by(alloc, grammar, &source) {
        Ok(parsed) => parsed_runs(alloc, path, &source, &parsed, rules, which, oracle),
        Err(refused) => Ok(refused_runs(alloc, refused)?),
    }
}
