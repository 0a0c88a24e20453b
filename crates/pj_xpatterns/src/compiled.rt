//! A compiled pattern.
ghost use Rattle.std.specs.Prelude.{◌≡◌, IfOk, IfErr, OnOk};
ghost use Rattle.pj_xpatterns.specs.Meaning.{IsNoPattern, is_found, pieces_between, with_replaced};
ghost use Rattle.pj_xpatterns.specs.Refusing.{IfRefused};

use crate::flags::PatternFlags;
use pj_base::{Names, NoMemory, Text};
use regex::{Error, Regex, RegexBuilder, Template};
use std::alloc::{AllocError, AllocFailed, Global};
use std::marker::Model;

/// Why patterns are not compiled.
#[derive(Debug, Drop)]
pub enum PatternFault {
    /// The pattern of this text is with its flags no pattern of `regex`'s grammar, or nests past its depth.
    Refused(Text),
    /// Memory was wanting.
    Memory,
}

impl From<AllocError> for PatternFault {
    ghost use Rattle.pj_xpatterns.specs.declared.compiled.PatternFault.TheVariants.{Memory};

    ghost from_gives = { λ _ fault. fault ≡ Memory };

    fn from(_: AllocError) -> Self {
        PatternFault::Memory
    }
}

impl<T: Drop> From<AllocFailed<T>> for PatternFault {
    ghost use Rattle.pj_xpatterns.specs.declared.compiled.PatternFault.TheVariants.{Memory};

    ghost from_gives = { λ _ fault. fault ≡ Memory };

    fn from(_: AllocFailed<T>) -> Self {
        PatternFault::Memory
    }
}

impl From<NoMemory> for PatternFault {
    ghost use Rattle.pj_xpatterns.specs.declared.compiled.PatternFault.TheVariants.{Memory};

    ghost from_gives = { λ _ fault. fault ≡ Memory };

    fn from(_: NoMemory) -> Self {
        PatternFault::Memory
    }
}

/// A pattern that is compiled, which contracts see as its text with its flags.
#[derive(Drop)]
pub struct CompiledPattern {
    regex: Regex,
    flags: PatternFlags,
}

impl Model for CompiledPattern {
    ghost use Rattle.std.specs.Prelude.{◌≡◌};
    ghost use Rattle.regex.specs.Strings.{IsReadFromSource, regex_config, regex_source};
    ghost use Rattle.pj_xpatterns.specs.Meaning.{Pattern, config_of};

    ghost Value = { Pattern };

    ghost view = { λ compiled. (regex_source compiled.regex, compiled.flags) };

    ghost invariant = { λ compiled. ∥ IsReadFromSource compiled.regex × (regex_config compiled.regex ≡ config_of compiled.flags) ∥₁ };
}

impl CompiledPattern {
    /// Compiles a pattern with its flags. One that `regex` finds too big is want of memory.
    pub fn of(
        alloc: Global,
        pattern: &str,
        flags: PatternFlags,
    ) -> Result<CompiledPattern, PatternFault>
        ensures value { IfOk result (λ compiled. compiled ≡ (pattern.now, flags)) }
        ensures taken { OnOk result (¬ IsNoPattern (pattern.now, flags)) }
        ensures refused { IfErr result (λ fault. IfRefused fault (λ text. (text ≡ pattern.now) × IsNoPattern (pattern.now, flags))) }
    {
        let built = RegexBuilder::new(pattern)
            .case_insensitive(flags.any_case)
            .multi_line(flags.multi_line)
            .dot_matches_new_line(flags.dot_all)
            .build(alloc);
        match built {
            Ok(regex) => Ok(CompiledPattern { regex, flags }),
            Err(error) => match error {
                Error::Syntax(_) => Err(PatternFault::Refused(Text::from_str(alloc, pattern)?)),
                _ => Err(PatternFault::Memory),
            },
        }
    }

    /// Whether the pattern is found anywhere in the text.
    pub fn is_found(&self, alloc: Global, text: &str) -> Result<bool, NoMemory>
        ensures { IfOk result (λ found. found ≡ is_found self.now text.now) }
    {
        let mut matcher = self.regex.matcher(alloc)?;
        Ok(matcher.is_match(text))
    }

    /// The pieces of the text between the pattern's matches, empty ones too.
    pub fn pieces(&self, alloc: Global, text: &str) -> Result<Names, NoMemory>
        ensures { IfOk result (λ pieces. pieces ≡ pieces_between self.now text.now) }
    {
        let mut matcher = self.regex.matcher(alloc)?;
        let mut pieces = Names::new(alloc);
        for piece in matcher.split(text) {
            pieces.push(Text::from_str(alloc, piece)?)?;
        }
        Ok(pieces)
    }

    /// The text with another in the place of each of the pattern's matches.
    pub fn replaced(&self, alloc: Global, by: &str, text: &str) -> Result<Text, NoMemory>
        ensures { IfOk result (λ made. made ≡ with_replaced self.now by.now text.now) }
    {
        let mut matcher = self.regex.matcher(alloc)?;
        let template = Template::literal(alloc, by)?;
        Ok(Text::from_string(matcher.replace_all(alloc, text, &template)?))
    }
}
