//! How far a resolution has come.

ghost use Rattle.std.specs.Prelude.{◌≡◌, ◌<◌, ◌+◌};
ghost use Rattle.pj_type_names.specs.TypeName.{is_busy};

use pj_base::Numbers;
use pj_outer_names::File;
use pj_tree::Node;

/// The most headers and lists of type arguments that stand open within one another.
pub const MOST_NESTED: u32 = 300;

/// The most headers that one call enters. A file has at most 200,000 tokens, and a class that another one has as a supertype costs
/// it 6 of them: `class`, its name, two braces, and its name in a header behind a word or a comma. So no list of supertypes has more
/// than 33,334 classes of the file, and each of them can be entered for one, unless their headers lead to others.
pub const MOST_ENTERED: u32 = 33_334;

/// How far a resolution has come.
#[derive(Drop)]
pub struct Stage<'s, 'f> {
    /// The file.
    pub file: &'s File<'f>,
    /// How many more headers may be entered within one another: the classes of the file are fewer.
    pub left: usize,
    /// The classes whose headers are being resolved.
    pub busy: &'s Numbers,
    /// How many more bounds of type parameters may be entered within one another.
    pub bounds: u32,
    /// How many headers and lists of type arguments stand open within one another.
    pub nested: u32,
}

impl<'s, 'f> Stage<'s, 'f> {
    /// The same within one bound more.
    pub fn within_bound(&self) -> Stage<'s, 'f>
        requires bounds { 0 < self.now.bounds }
        ensures file { result.file.now ≡ self.now.file.now }
        ensures left { result.left ≡ self.now.left }
        ensures busy { result.busy.now ≡ self.now.busy.now }
        ensures bounds { result.bounds + 1 ≡ self.now.bounds }
    {
        Stage {
            file: self.file,
            left: self.left,
            busy: self.busy,
            bounds: self.bounds - 1,
            nested: self.nested,
        }
    }

    /// The same within one list of type arguments more.
    pub fn within_list(&self) -> Stage<'s, 'f>
        requires nested { self.now.nested < 300 }
        ensures file { result.file.now ≡ self.now.file.now }
        ensures left { result.left ≡ self.now.left }
        ensures busy { result.busy.now ≡ self.now.busy.now }
        ensures bounds { result.bounds ≡ self.now.bounds }
    {
        Stage {
            file: self.file,
            left: self.left,
            busy: self.busy,
            bounds: self.bounds,
            nested: self.nested + 1,
        }
    }
}

/// How often headers were entered in a call.
#[derive(Drop)]
pub struct Entered {
    pub headers: u32,
}

/// Whether the header of the class is being resolved.
pub fn is_busy(busy: &Numbers, class: Node) -> bool
    ensures { result ≡ is_busy busy.now class }
{
    busy.contains(&class.0)
}
