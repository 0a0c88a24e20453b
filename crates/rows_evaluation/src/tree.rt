//! The small tree over which expressions and axes are asked.
ghost use Rattle.std.specs.Prelude.{◌≡◌, [], IfOk};
ghost use Rattle.pj_tree.specs.Building.{started, built};
ghost use Rattle.pj_tree.specs.Nested.{calls_of};
ghost use Rattle.rows_evaluation.specs.Nodes.{nodes};

use pj_base::NoMemory;
use pj_tree::{Builder, Kind, ShapeFault, SyntaxTree};
use std::alloc::Global;

/// Writes twelve nodes: 0 the unit, with 1, 5 and 10; the class 1 has the identifier 2 and the block 3, which has the
/// identifier 4; the class 5 has the block 6 with the identifier 7, the identifier 8 and the block 9; the method 10 has the
/// block 11.
fn write_nodes(builder: &mut Builder<'static>) -> Result<(), NoMemory>
    requires { builder.old ≡ started [] }
    ensures { IfOk result (λ _. builder.new ≡ built [] (calls_of nodes)) }
{
    builder.open(Kind::CompilationUnit, 0)?;
    builder.open(Kind::ClassDeclaration, 0)?;
    builder.open(Kind::VariableId, 0)?;
    builder.close(0);
    builder.open(Kind::Block, 0)?;
    builder.open(Kind::VariableId, 0)?;
    builder.close(0);
    builder.close(0);
    builder.close(0);
    builder.open(Kind::ClassDeclaration, 0)?;
    builder.open(Kind::Block, 0)?;
    builder.open(Kind::VariableId, 0)?;
    builder.close(0);
    builder.close(0);
    builder.open(Kind::VariableId, 0)?;
    builder.close(0);
    builder.open(Kind::Block, 0)?;
    builder.close(0);
    builder.close(0);
    builder.open(Kind::MethodDeclaration, 0)?;
    builder.open(Kind::Block, 0)?;
    builder.close(0);
    builder.close(0);
    builder.close(0);
    Ok(())
}

/// The tree of those nodes.
pub fn small_tree(alloc: Global) -> Result<SyntaxTree<'static>, ShapeFault> {
    let mut builder: Builder<'static> = Builder::new(alloc, "");
    write_nodes(&mut builder)?;
    builder.finish()
}
