//! An oracle over a table at its end.
ghost use Rattle.std.specs.Prelude.{◌≡◌, None, length};
ghost use Rattle.std.specs.FinSet as set;
ghost use Rattle.pj_crew.specs.Together.{AreRightParts};
ghost use Rattle.pj_shared_files.specs.Answering.{HaveRightEntries, right_entries_prop};
ghost use Rattle.pj_table.specs.Telling.{tells_of};
ghost use Rattle.pj_table.specs.Worlds.{World};

use pj_base::Copied;
use pj_names::{Answer, AskFault, ClassName, ClassNameSet, Oracle};
use pj_table::Closed;
use std::alloc::Global;
use std::marker::{Brand, PhantomData};
use std::sync::Arc;

/// What is known of a table: the world of its doors. Each call of a program picks it.
pub trait Knowing {
    ghost world: { World };
}

impl Knowing for Brand {
    ghost world = { None };
}

/// An oracle over a table at its end: it answers the names that were asked of the table. For another name it wants memory.
#[derive(Drop)]
pub struct ClosedOracle<'c, W: Knowing> {
    closed: &'c Closed,
    asked: ClassNameSet,
    of: PhantomData<W>,
    ghost right: { HaveRightEntries W.world closed.now.parts.items } by { right_entries_prop W.world closed.now.parts.items },
    ghost many: { length closed.now.parts.items ≡ 64 },
}

impl<'c, W: Knowing> ClosedOracle<'c, W> {
    /// The oracle over a table at its end, of which nothing was asked. It takes no memory.
    pub fn new(alloc: Global, closed: &'c Closed) -> ClosedOracle<'c, W>
        requires { AreRightParts W.world closed.now.parts.items }
        ensures { ⟦<ClosedOracle<'c, W> as Oracle>⟧.tells result ≡ tells_of tt W.world set.empty 0 }
    {
        ClosedOracle {
            closed,
            asked: ClassNameSet::new(alloc),
            of: PhantomData,
        }
    }
}

impl<'c, W: Knowing> Oracle for ClosedOracle<'c, W> {
    ghost Kept = { Unit {0} };

    ghost tells = { λ oracle. tells_of tt W.world oracle.asked 0 };

    fn ask(&mut self, name: &ClassName) -> Result<Arc<Answer>, AskFault> {
        self.asked.insert(name.copied()?)?;
        match self.closed.answer_of(name) {
            Some(answer) => Ok(answer.clone()?),
            None => Err(AskFault::Memory),
        }
    }
}
