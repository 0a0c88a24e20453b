//! What is imported, and the classes of the file's package.

ghost use Rattle.std.specs.Prelude.{◌≡◌, ◌++◌, ◌<◌, length, IfOk, IfSome, codes};
ghost use Rattle.std.specs.List.{All};
ghost use Rattle.pj_names.specs.JavaType.{java_type};
ghost use Rattle.pj_names.specs.Asking.{each};
ghost use Rattle.pj_names.specs.Told.{Asks, seen};
ghost use Rattle.pj_declared.specs.Nearest.{single_import};
ghost use Rattle.pj_symbols.specs.Names.{package_prefix};
ghost use Rattle.pj_outer_names.specs.Candidates.{file_classes, first_candidate};
ghost use Rattle.pj_outer_names.specs.Imports.{all_are, by_import, imported, imported_text, imports_on_demand, in_package, is_sign, joined, name_in_package, on_demand, one_among, one_class, outside};

use crate::candidates::{dotted_class, first_candidate, found_class};
use crate::file::File;
use pj_base::{Copied, ListOf, NoMemory, Text};
use pj_declared::ImportSort;
use pj_names::{AskFault, ClassName, Oracle, Ty, Types};
use pj_tree::{Node, OwnTokens, SyntaxTree};
use std::alloc::Global;

/// What imports on demand give for a name, one after the other.
type Hits = ListOf<Option<ClassName>>;

/// Whether a word of an import is none of the name.
fn is_sign(word: &str) -> bool
    ensures { result ≡ is_sign word.now }
{
    match word {
        "import" | "static" | ";" | "*" => true,
        _ => false,
    }
}

/// The words that are none of its signs, one behind the other.
fn joined(alloc: Global, words: OwnTokens<'_>) -> Result<Text, NoMemory>
    ensures { IfOk result (λ text. text ≡ joined words.entry) }
{
    let mut text = Text::new(alloc);
    for word in words {
        if !is_sign(word) {
            text.push_str(word)?;
        }
    }
    Ok(text)
}

/// What an import writes without its signs: of one on demand it ends with a dot.
pub fn imported_text(alloc: Global, tree: &SyntaxTree<'_>, import: Node) -> Result<Text, NoMemory>
    requires inside { import.0 < length tree.now.nodes }
    ensures { IfOk result (λ text. text ≡ imported_text tree.now import) }
{
    joined(alloc, tree.own(import))
}

/// Whether all hits are the class.
fn all_are(name: &ClassName, hits: &[Option<ClassName>]) -> bool
    ensures { result ≡ all_are name.now hits.now }
{
    for hit in hits {
        if let Some(hit) = hit {
            if hit != name {
                return false;
            }
        }
    }
    true
}

/// The class, where all further hits are it: two that differ are none.
fn one_class(hit: &ClassName, further: &[Option<ClassName>]) -> Result<Ty, NoMemory>
    ensures { IfOk result (λ ty. java_type ty ≡ one_class hit.now further.now) }
{
    if !all_are(hit, further) {
        return Ok(Ty::Unknown);
    }
    let name = hit.copied()?;
    Ok(Ty::Class(name, Types::End))
}

/// The one class among hits, where there is one.
#[tactic(auto, using(crate::proofs::Turns::hit_turns))]
fn one_among(hits: &[Option<ClassName>]) -> Result<Ty, NoMemory>
    ensures { IfOk result (λ ty. java_type ty ≡ one_among hits.now) }
{
    for i in 0..hits.len() {
        if let Some(hit) = &hits[i] {
            return one_class(hit, &hits[i + 1..]);
        }
    }
    Ok(Ty::Unknown)
}

/// The class of an import of one name, without arguments.
#[tactic(auto, using(pj_names::proofs::AskingLaws::asking_steps))]
fn imported<O: Oracle>(
    alloc: Global,
    file: &File<'_>,
    oracle: &mut O,
    import: Node,
) -> Result<Ty, AskFault>
    requires inside { import.0 < length file.now.nodes }
    ensures { Asks (imported file.now (file_classes file.now) import) (O.tells oracle.old) (O.tells oracle.new) (seen java_type result) }
{
    let text = imported_text(alloc, file.tree(), import)?;
    match dotted_class(alloc, file, oracle, text.as_str())? {
        Some(name) => Ok(Ty::Class(name, Types::End)),
        None => Ok(Ty::Unknown),
    }
}

/// The class of the name that one import on demand gives.
#[tactic(auto, using(pj_names::proofs::AskingLaws::asking_steps))]
fn by_import<O: Oracle>(
    alloc: Global,
    file: &File<'_>,
    oracle: &mut O,
    simple: &str,
    import: Node,
) -> Result<Option<ClassName>, AskFault>
    requires inside { import.0 < length file.now.nodes }
    ensures { Asks (by_import file.now (file_classes file.now) simple.now import) (O.tells oracle.old) (O.tells oracle.new) result }
{
    let mut text = imported_text(alloc, file.tree(), import)?;
    text.push_str(simple)?;
    first_candidate(alloc, file, oracle, text.as_str())
}

/// What each of some imports on demand gives for the name.
#[tactic(auto, using(pj_names::proofs::AskingLaws::asking_loops))]
fn by_each<O: Oracle>(
    alloc: Global,
    file: &File<'_>,
    oracle: &mut O,
    simple: &str,
    imports: &[Node],
) -> Result<Hits, AskFault>
    requires inside { All (λ (m : Node). m.0 < length file.now.nodes) imports.now }
    ensures { Asks (each (by_import file.now (file_classes file.now) simple.now) imports.now) (O.tells oracle.old) (O.tells oracle.new) result }
{
    let mut hits = Hits::new(alloc);
    for import in imports {
        let hit = by_import(alloc, file, oracle, simple, *import)?;
        hits.push(hit)?;
    }
    Ok(hits)
}

/// What each import on demand of the file gives for the name.
#[tactic(auto, using(pj_names::proofs::AskingLaws::asking_steps))]
fn by_imports<O: Oracle>(
    alloc: Global,
    file: &File<'_>,
    oracle: &mut O,
    simple: &str,
) -> Result<Hits, AskFault>
    ensures { Asks (each (by_import file.now (file_classes file.now) simple.now) (imports_on_demand file.now)) (O.tells oracle.old) (O.tells oracle.new) result }
{
    by_each(alloc, file, oracle, simple, file.imports_on_demand())
}

/// The class of the name in `java.lang` (JLS 7.3).
#[tactic(auto, using(pj_names::proofs::AskingLaws::asking_steps))]
fn in_java_lang<O: Oracle>(
    alloc: Global,
    file: &File<'_>,
    oracle: &mut O,
    simple: &str,
) -> Result<Option<ClassName>, AskFault>
    ensures { Asks (first_candidate (file_classes file.now) (codes "java.lang." ++ simple.now)) (O.tells oracle.old) (O.tells oracle.new) result }
{
    let mut text = Text::from_str(alloc, "java.lang.")?;
    text.push_str(simple)?;
    first_candidate(alloc, file, oracle, text.as_str())
}

/// The class that imports on demand and `java.lang` give: all of them are asked, also after two hits that differ.
#[tactic(auto, using(pj_names::proofs::AskingLaws::asking_steps))]
fn on_demand<O: Oracle>(
    alloc: Global,
    file: &File<'_>,
    oracle: &mut O,
    simple: &str,
) -> Result<Ty, AskFault>
    ensures { Asks (on_demand file.now (file_classes file.now) simple.now) (O.tells oracle.old) (O.tells oracle.new) (seen java_type result) }
{
    let mut hits = by_imports(alloc, file, oracle, simple)?;
    let last = in_java_lang(alloc, file, oracle, simple)?;
    hits.push(last)?;
    let ty = one_among(hits.as_slice())?;
    Ok(ty)
}

/// What stands before the names of the classes of a package.
fn package_prefix(alloc: Global, package_name: &str) -> Result<Text, NoMemory>
    ensures { IfOk result (λ prefix. prefix ≡ package_prefix package_name.now) }
{
    let mut prefix = Text::from_str(alloc, package_name)?;
    if !package_name.is_empty() {
        prefix.push_str(".")?;
    }
    Ok(prefix)
}

/// The name that a class of the simple name has in the package of the file.
fn name_in_package(alloc: Global, file: &File<'_>, simple: &str) -> Result<Text, NoMemory>
    ensures { IfOk result (λ text. text ≡ name_in_package file.now simple.now) }
{
    let mut text = package_prefix(alloc, file.symbols().package_name())?;
    text.push_str(simple)?;
    Ok(text)
}

/// The class of the name in the package of the file, and else what is imported on demand.
#[tactic(auto, using(pj_names::proofs::AskingLaws::asking_steps))]
fn in_package<O: Oracle>(
    alloc: Global,
    file: &File<'_>,
    oracle: &mut O,
    simple: &str,
) -> Result<Ty, AskFault>
    ensures { Asks (in_package file.now (file_classes file.now) simple.now) (O.tells oracle.old) (O.tells oracle.new) (seen java_type result) }
{
    let text = name_in_package(alloc, file, simple)?;
    match found_class(alloc, file, oracle, text.as_str())? {
        Some(name) => Ok(Ty::Class(name, Types::End)),
        None => on_demand(alloc, file, oracle, simple),
    }
}

/// The import of one name by which the simple name is known.
fn single_import(file: &File<'_>, sort: ImportSort, simple: &str) -> Option<Node>
    ensures value { result ≡ single_import file.now sort simple.now }
    ensures inside { IfSome result (λ import. import.0 < length file.now.nodes) }
{
    file.declarations().single_import(sort, simple)
}

/// What a simple name means behind the scopes of the file: imports of the name, of types and then static ones, the package,
/// and imports on demand (JLS 6.4.1, 7.5).
#[tactic(auto, using(pj_names::proofs::AskingLaws::asking_steps))]
pub fn outside<O: Oracle>(
    alloc: Global,
    file: &File<'_>,
    oracle: &mut O,
    simple: &str,
) -> Result<Ty, AskFault>
    ensures { Asks (outside file.now (file_classes file.now) simple.now) (O.tells oracle.old) (O.tells oracle.new) (seen java_type result) }
{
    if let Some(import) = single_import(file, ImportSort::OfType, simple) {
        return imported(alloc, file, oracle, import);
    }
    match single_import(file, ImportSort::Static, simple) {
        Some(import) => imported(alloc, file, oracle, import),
        None => in_package(alloc, file, oracle, simple),
    }
}
