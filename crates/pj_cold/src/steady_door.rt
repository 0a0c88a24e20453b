//! A door that never fails where its class path never fails.
ghost use Rattle.std.specs.Prelude.{◌≡◌};

use pj_names::ClassName;
use pj_outside::{ClassDoor, Reading, Refused};
use std::marker::{Brand, PhantomData};

/// What is known of a class path: that it never fails. Each call of a program picks it.
pub trait Knowing {
    ghost never_fails: { Type 0 };
}

impl Knowing for Brand {
    ghost never_fails = { Unit {0} };
}

/// A door that was opened. Where it is known never to fail it has no faults, whoever calls it.
pub struct SteadyDoor<D: ClassDoor, V: Knowing + Send> {
    /// The door.
    pub door: D,
    of: PhantomData<V>,
    ghost steady: { ∥ (V.never_fails → D.never_fails door × (D.faults door ≡ 0)) ∥₁ },
}

impl<D: ClassDoor, V: Knowing + Send> SteadyDoor<D, V> {
    /// The door, which never fails where that is known.
    pub fn new(door: D) -> SteadyDoor<D, V>
        requires steady { V.never_fails → D.never_fails door }
        requires no_faults { D.faults door ≡ 0 }
        ensures holds { D.holds result.door ≡ D.holds door }
        ensures no_faults { D.faults result.door ≡ 0 }
        ensures finds { D.finds result.door ≡ D.finds door }
    {
        SteadyDoor {
            door,
            of: PhantomData,
        }
    }

    /// The door. Where it is known never to fail it has no faults.
    pub fn into_door(self) -> D
        ensures faults { D.faults result ≡ D.faults self.door }
        ensures finds { D.finds result ≡ D.finds self.door }
        ensures steady { V.never_fails → D.faults self.door ≡ 0 }
    {
        let SteadyDoor { door, of: _ } = self;
        door
    }
}

impl<D: ClassDoor, V: Knowing + Send> ClassDoor for SteadyDoor<D, V> {
    ghost holds = { λ d. D.holds d.door };

    ghost finds = { λ d. D.finds d.door };

    ghost faults = { λ d. D.faults d.door };

    ghost never_fails = { λ d. D.never_fails d.door };

    fn find(&mut self, name: &ClassName, most: u64) -> Result<Reading, Refused> {
        self.door.find(name, most)
    }

    fn count_finds(&self) -> u64 {
        self.door.count_finds()
    }
}
