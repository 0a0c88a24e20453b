//! The functions of PMD.
ghost use Rattle.std.specs.Prelude.{◌≡◌};
ghost use Rattle.pj_xexpressions.specs.Functions.{pmd_takes};

/// A function of PMD. The first five have the prefix `pmd:`, the others `pmd-java:`.
#[derive(Clone, Copy, Debug, PartialEq, Eq)]
pub enum PmdFunction {
    /// `fileName()`: the last part of the file's path.
    FileName,
    /// `startLine(node)`: the line in which the node begins.
    StartLine,
    /// `startColumn(node)`: the column at which the node begins.
    StartColumn,
    /// `endLine(node)`: the line of the node's last character, or the one where it begins if it is empty.
    EndLine,
    /// `endColumn(node)`: the column of the node's last character, or the one where it begins if it is empty.
    EndColumn,
    /// `typeIs(name)`: whether the context node's type, or one above it, has the name.
    TypeIs,
    /// `typeIsExactly(name)`: whether the context node's type has the name.
    TypeIsExactly,
    /// `hasAnnotation(name)`: whether the context node has an annotation of the type of that name.
    HasAnnotation,
    /// `matchesSig(pattern)`: whether the method that the context node calls is as the pattern says.
    MatchesSig,
    /// `nodeIs(name)`: whether the context node is of the kind or the group of that name.
    NodeIs,
    /// `modifiers()`: the words of the context node's effective modifiers.
    Modifiers,
    /// `explicitModifiers()`: the words of the context node's written modifiers.
    ExplicitModifiers,
}

impl PmdFunction {
    /// Whether the function takes so many arguments.
    pub fn takes(self, count: usize) -> bool
        ensures { result ≡ pmd_takes self count }
    {
        match self {
            PmdFunction::FileName | PmdFunction::Modifiers | PmdFunction::ExplicitModifiers => count
                == 0,
            _ => count == 1,
        }
    }
}
