//! Whole files: from their bytes to text, tokens, syntax tree and pool, or the first fault.

ghost use Rattle.std.specs.Prelude.{◌≡◌, ◌≤◌, ℕ, List, length, Ok, IfOk, MatchResult};
ghost use Rattle.pj_grammar.specs.Java17.{java_17_forms};
ghost use Rattle.pj_source.specs.SourceText.{IsRead};
ghost use Rattle.pj_parse.specs.JavaFile.{IsJavaFile};
ghost use Rattle.pj_parse.specs.Refused.{IsRefused, StandsIn, file_seen, fault_unread, fault_unparsed, refused_by};
ghost use Rattle.pj_peg_grammar.specs.Form.{forms_of};

use crate::fault::ParseFault;
use crate::file_fault::{FileFault, FileRefused};
use crate::laws::faults_stand_in_text;
use crate::parsing::{Parsed, parse_by};
use pj_grammar::java_17;
use pj_peg::WellFormed;
use pj_source::{Source, SourceFault};
use std::alloc::Global;

/// What a fault of bytes is, in a file.
fn refused_unread(fault: SourceFault) -> FileRefused
    ensures { result ≡ refused_by (fault_unread fault) }
{
    match fault {
        SourceFault::NotUtf8(offset) => FileRefused::Fault(FileFault::NotUtf8(offset)),
        SourceFault::Escape(place) => FileRefused::Fault(FileFault::Escape(place)),
        SourceFault::Memory => FileRefused::Memory,
    }
}

/// What a fault of a text is, in a file.
fn refused_unparsed(source: &Source, fault: ParseFault) -> FileRefused
    requires { StandsIn source.now fault }
    ensures { result ≡ refused_by (fault_unparsed source.now fault) }
{
    match fault {
        ParseFault::Lex(fault) => FileRefused::Fault(FileFault::Lexical(
            fault.kind,
            source.place(fault.offset),
        )),
        ParseFault::TooManyTokens(count) => FileRefused::Fault(FileFault::TooManyTokens(count)),
        ParseFault::Syntax => FileRefused::Fault(FileFault::Syntax),
        ParseFault::TooDeep(depth) => FileRefused::Fault(FileFault::TooDeep(depth)),
        ParseFault::TooMany(count) => FileRefused::Fault(FileFault::TooManyNodes(count)),
        ParseFault::Memory => FileRefused::Memory,
    }
}

/// The text of a file, with the places of its characters, or the first fault of the bytes.
pub fn read_file(alloc: Global, bytes: &[u8]) -> Result<Source, FileRefused>
    requires { length bytes.now ≤ 4294967294 }
    ensures { MatchResult result (λ source. IsRead bytes.now (Ok source)) (IsRefused bytes.now) }
{
    match Source::read(alloc, bytes) {
        Ok(source) => Ok(source),
        Err(fault) => Err(refused_unread(fault)),
    }
}

/// The tokens, the syntax tree and the pool of a file whose text was read, by a grammar that the caller keeps for many
/// files, or the first fault of the text.
pub fn parse_file_by<'s>(
    alloc: Global,
    grammar: &WellFormed,
    source: &'s Source,
) -> Result<Parsed<'s>, FileRefused>
    requires { forms_of grammar.now ≡ java_17_forms }
    ensures file { (bytes : List ℕ) → IsRead bytes (Ok source.now) → MatchResult result (λ parsed. IsJavaFile bytes (Ok (file_seen source.now parsed))) (IsRefused bytes) }
    ensures text { IfOk result (λ parsed. parsed.tree.text ≡ source.now.text) }
{
    faults_stand_in_text(source.text());
    match parse_by(alloc, grammar, source) {
        Ok(parsed) => Ok(parsed),
        Err(fault) => Err(refused_unparsed(source, fault)),
    }
}

/// The tokens, the syntax tree and the pool of a file whose text was read, or the first fault of the text.
pub fn parse_file<'s>(alloc: Global, source: &'s Source) -> Result<Parsed<'s>, FileRefused>
    ensures file { (bytes : List ℕ) → IsRead bytes (Ok source.now) → MatchResult result (λ parsed. IsJavaFile bytes (Ok (file_seen source.now parsed))) (IsRefused bytes) }
    ensures text { IfOk result (λ parsed. parsed.tree.text ≡ source.now.text) }
{
    match java_17(alloc) {
        Ok(grammar) => parse_file_by(alloc, &grammar, source),
        Err(_) => Err(FileRefused::Memory),
    }
}
