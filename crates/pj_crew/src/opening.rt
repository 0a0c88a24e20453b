//! Doors to class folders, for several workers.
ghost use Rattle.std.specs.Prelude.{◌≡◌, ◌≢◌, ◌≤◌, [], Err, OnOk, vec_capacity, vec_len};
ghost use Rattle.std.specs.List.{AllByRecursion};
ghost use Rattle.std.specs.Option.{option_map};
ghost use Rattle.pj_outside.specs.Doors.{TakesFaults, opened};
ghost use Rattle.pj_outside.specs.Faults.{CountsFaults};
ghost use Rattle.pj_table.specs.Rule.{total};
ghost use Rattle.pj_crew.specs.Opening.{IsNewDoor, counted_on, with_finds};

use pj_base::Names;
use pj_outside::{ClassPath, Refused};

/// Opens so many doors to the folders of these names. The doors that were opened stand in `doors`, also where one could not be. It takes no
/// memory of its own.
pub fn open_doors<C: ClassPath>(
    classes: &mut C,
    folders: &Names,
    count: u32,
    doors: &mut Vec<C::Door>,
) -> Result<(), Refused>
    requires room { (doors.old.items ≡ []) × (vec_len doors.old ≡ 0) × (count ≤ vec_capacity doors.old) }
    ensures doors { AllByRecursion (IsNewDoor C.Door.holds C.Door.finds C.Door.faults (option_map (λ held. opened held folders.now) (C.holds classes.old))) doors.new.items }
    ensures many { OnOk result (vec_len doors.new ≡ count) }
    ensures given { C.given classes.new ≡ counted_on (vec_len doors.new) (C.given classes.old) }
    ensures same_folders { C.holds classes.new ≡ C.holds classes.old }
    ensures same_taken { C.taken classes.new ≡ C.taken classes.old }
    ensures same_finds { C.finds classes.new ≡ C.finds classes.old }
    ensures faults { CountsFaults (C.faults classes.old) (C.faults classes.new) result }
    ensures steady { C.never_fails classes.old → C.never_fails classes.new × (result ≢ Err Refused.Failed) }
    ensures steady_doors { C.never_fails classes.old → AllByRecursion C.Door.never_fails doors.new.items }
{
    for _ in 0..count {
        let door = classes.open(folders)?;
        doors.push_reserved(door);
    }
    Ok(())
}

/// Shuts all doors.
pub fn shut_doors<C: ClassPath>(classes: &mut C, mut doors: Vec<C::Door>)
    ensures taken { C.taken classes.new ≡ counted_on (vec_len doors) (C.taken classes.old) }
    ensures finds { C.finds classes.new ≡ with_finds C.Door.finds doors.items (C.finds classes.old) }
    ensures faults { TakesFaults (C.faults classes.old) (C.faults classes.new) (total C.Door.faults doors.items) }
    ensures same_given { C.given classes.new ≡ C.given classes.old }
    ensures same_folders { C.holds classes.new ≡ C.holds classes.old }
    ensures steady { C.never_fails classes.old → C.never_fails classes.new }
{
    for _ in 0..doors.len() {
        classes.shut(doors.take_last());
    }
    doors.destroy_empty();
}
