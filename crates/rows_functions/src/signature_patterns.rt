//! Signature patterns, with what is read of them.
use pj_base::NoMemory;
use pj_rows::{Row, Section, Table, put};
use pj_signature_patterns::{
    MethodPattern, ParametersPattern, SigPattern, TypePattern, TypePatterns,
};
use std::alloc::Global;

/// The table.
pub struct SignaturePatterns;

impl Table for SignaturePatterns {
    fn answer(&self, alloc: Global, _section: &Section, row: &Row) -> Result<String, NoMemory> {
        let mut shown = String::new(alloc);
        match SigPattern::parse(alloc, row.given.as_str())? {
            Some(pattern) => put_pattern(&mut shown, &pattern)?,
            None => put(&mut shown, &["! none"])?,
        }
        Ok(shown)
    }
}

/// Puts a pattern at the end, a word for each of its parts.
fn put_pattern(shown: &mut String, pattern: &SigPattern) -> Result<(), NoMemory> {
    put(shown, &["on ", type_word(&pattern.receiver), ", "])?;
    match &pattern.method {
        MethodPattern::Any => put(shown, &["any method"])?,
        MethodPattern::Constructor => put(shown, &["constructor"])?,
        MethodPattern::Named(name) => put(shown, &["method ", name.as_str()])?,
    }
    match &pattern.parameters {
        ParametersPattern::Any => put(shown, &[", any parameters"]),
        ParametersPattern::Listed(types) => put_types(shown, types),
    }
}

/// What is asked of a type, as a word.
fn type_word(pattern: &TypePattern) -> &str {
    match pattern {
        TypePattern::Any => "any",
        TypePattern::Named(name) => name.as_str(),
    }
}

/// Puts what is asked of the parameters at the end.
fn put_types(shown: &mut String, types: &TypePatterns) -> Result<(), NoMemory> {
    if types.is_empty() {
        return put(shown, &[", no parameters"]);
    }
    put(shown, &[", parameters"])?;
    for pattern in types.as_slice() {
        put(shown, &[" ", type_word(pattern)])?;
    }
    Ok(())
}
