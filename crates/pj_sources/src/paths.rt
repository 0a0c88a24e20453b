//! Paths of source files.
ghost use Rattle.std.specs.Prelude.{◌≡◌};
ghost use Rattle.pj_sources.specs.Paths.{is_java, is_module_info, is_source, path_listed};

/// Whether the path ends in `.java`.
fn is_java(path: &str) -> bool
    ensures { result ≡ is_java path.now }
{
    path.as_bytes().ends_with(b".java")
}

/// Whether the path's last part is `module-info.java`.
pub fn is_module_info(path: &str) -> bool
    ensures { result ≡ is_module_info path.now }
{
    path == "module-info.java" || path.as_bytes().ends_with(b"/module-info.java")
}

/// Whether the path is of a source file: a Java file that holds no module's declaration.
pub fn is_source(path: &str) -> bool
    ensures { result ≡ is_source path.now }
{
    is_java(path) && !is_module_info(path)
}

/// The path under which an item is listed: without its last `/` where it ends in one and is longer than that.
pub fn path_listed(item: &str) -> &str
    ensures { result.now ≡ path_listed item.now }
{
    match item.strip_suffix("/") {
        None => item,
        Some(front) => { if front.is_empty() { item } else { front } }
    }
}
