//! Reading files.
ghost use Rattle.std.specs.Prelude.{◌≡◌, ◌≢◌, ◌<◌, ◌≤◌, ◌^◌, None, Some, Err, IfOk, IfErr, IfSome, length};
ghost use Rattle.std.specs.Str.{chars};
ghost use Rattle.pj_rule_texts.specs.Files.{AreFault, AreRuleset, CountsFaults, GivesRead, IfFault, IfUnread, IsRootFault, IsRuleset, IsTextFault, IsUnreadable, greatest_size, refused_of};
ghost use Rattle.pj_outside.specs.Files.{IsAtMost};
ghost use Rattle.pj_rule_texts.specs.Readings.{Gives, Refuses, unread_of};
ghost use Rattle.pj_rule_texts.specs.Written.{written_ruleset};

use crate::file_fault::{FileFault, FileRefused, Unread};
use crate::{WrittenRuleset, written_ruleset};
use pj_markup::{Markup, MarkupFault, read};
use pj_outside::{Reading, Tree};
use std::alloc::Global;

/// The greatest number of bytes of a ruleset.
const GREATEST_SIZE: u64 = 1_048_576;

/// What is written in a file of this markup.
fn of_markup(alloc: Global, markup: &Markup) -> Result<WrittenRuleset, Unread>
    ensures value { IfOk result (λ written. written_ruleset markup.now ≡ Some written) }
    ensures fault { IfErr result (IfUnread (IsRootFault markup.now)) }
{
    match written_ruleset(alloc, markup)? {
        Some(written) => Ok(written),
        None => Err(Unread::Fault(FileFault::Markup(markup.offset(markup.root())))),
    }
}

/// The fault of a file whose text is no markup.
fn unread_of(fault: MarkupFault) -> Unread
    ensures { result ≡ unread_of fault }
{
    match fault {
        MarkupFault::At(offset) => Unread::Fault(FileFault::Markup(offset)),
        MarkupFault::Deep(_, offset) => Unread::Fault(FileFault::Markup(offset)),
        MarkupFault::Memory => Unread::Memory,
    }
}

/// What is written in a file of this text.
fn of_text(alloc: Global, text: &str) -> Result<WrittenRuleset, Unread>
    requires { length text.now < 2 ^ 32 }
    ensures value { IfOk result (IsRuleset (chars text.now)) }
    ensures fault { IfErr result (IfUnread (IsTextFault (chars text.now))) }
{
    match read(alloc, text) {
        Ok(markup) => of_markup(alloc, &markup),
        Err(fault) => Err(unread_of(fault)),
    }
}

/// What is written in a file of these bytes.
fn of_bytes(alloc: Global, bytes: &[u8]) -> Result<WrittenRuleset, Unread>
    requires { length bytes.now ≤ greatest_size }
    ensures value { IfOk result (AreRuleset bytes.now) }
    ensures fault { IfErr result (IfUnread (AreFault bytes.now)) }
{
    match str::from_utf8(bytes) {
        Ok(text) => of_text(alloc, text),
        Err(error) => Err(Unread::Fault(FileFault::Markup(error.valid_up_to() as u32))),
    }
}

/// What is written in a file that was read so.
fn of_reading(alloc: Global, reading: Reading) -> Result<Option<WrittenRuleset>, Unread>
    requires { IsAtMost greatest_size reading }
    ensures value { IfOk result (Gives reading) }
    ensures fault { IfErr result (IfUnread (Refuses reading)) }
{
    match reading {
        Reading::Absent => Ok(None),
        Reading::Longer => Err(Unread::Fault(FileFault::TooLong)),
        Reading::Whole(bytes) => {
            let written = of_bytes(alloc, bytes.as_slice())?;
            Ok(Some(written))
        }
    }
}

/// The refusal of a file that is not read.
fn refused_of(fault: Unread) -> FileRefused
    ensures { result ≡ refused_of fault }
{
    match fault {
        Unread::Fault(fault) => FileRefused::Fault(fault),
        Unread::Memory => FileRefused::Memory,
    }
}

/// What is written in the file of a path, which is read to its end as markup, or `None` exactly where the tree has no such file.
///
/// `Fault` says why the file is no ruleset: that it is too long, or else that it is not UTF-8, or else where its text is no markup,
/// or else that its root is another one. `Failed` comes only where the tree's count rose.
pub fn read_ruleset<T: Tree>(
    alloc: Global,
    tree: &mut T,
    path: &str,
) -> Result<Option<WrittenRuleset>, FileRefused>
    ensures same_files { T.holds tree.new ≡ T.holds tree.old }
    ensures counts_faults { CountsFaults (T.faults tree.old) (T.faults tree.new) result }
    ensures steady { T.never_fails tree.old → T.never_fails tree.new × (result ≢ Err FileRefused.Failed) }
    ensures read { IfSome (T.holds tree.old) (λ files. IfOk result (GivesRead files path.now)) }
    ensures fault { IfSome (T.holds tree.old) (λ files. IfErr result (IfFault (IsUnreadable files path.now))) }
{
    let reading = tree.read(path, GREATEST_SIZE)?;
    match of_reading(alloc, reading) {
        Ok(written) => Ok(written),
        Err(fault) => Err(refused_of(fault)),
    }
}
