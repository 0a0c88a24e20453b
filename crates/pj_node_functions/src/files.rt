//! The name of a file.
ghost use Rattle.std.specs.Prelude.{◌≡◌};
ghost use Rattle.pj_node_functions.specs.Files.{file_name};

/// The last part of a path: what stands behind its last `/`, and all of a path without one.
pub(crate) fn file_name(path: &str) -> &str
    ensures { result.now ≡ file_name path.now }
{
    match path.rsplit_once('/') {
        Some((_, last)) => last,
        None => path,
    }
}
