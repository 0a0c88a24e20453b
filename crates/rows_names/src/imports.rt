//! Names behind the scopes of a file.
use pj_base::Text;
use pj_names::{AskFault, Oracle};
use pj_outer_names::{File, dotted_class, outside};
use pj_row_java::{Over, put_type};
use std::alloc::Global;

/// Puts what a simple name is behind the scopes of the file.
pub fn put_outside<O: Oracle>(
    alloc: Global,
    file: &File<'_>,
    over: &mut Over<'_, O>,
    name: &str,
    out: &mut Text,
) -> Result<(), AskFault> {
    let ty = outside(alloc, file, over, name)?;
    Ok(put_type(out, &ty)?)
}

/// Puts what a name with dots is by its candidates.
pub fn put_dotted<O: Oracle>(
    alloc: Global,
    file: &File<'_>,
    over: &mut Over<'_, O>,
    name: &str,
    out: &mut Text,
) -> Result<(), AskFault> {
    match dotted_class(alloc, file, over, name)? {
        Some(class) => Ok(out.push_str(class.as_str())?),
        None => Ok(out.push_str("?")?),
    }
}
