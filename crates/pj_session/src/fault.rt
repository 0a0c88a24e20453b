//! Why a session has no reports.
use pj_base::NoMemory;
use pj_check::Outcome;

/// Why a session has no reports.
#[derive(Debug, Drop)]
pub enum SessionFault {
    /// The run over the world of this place, counted from 0, was refused, and no later one was made.
    Run(u32, Outcome),
    /// Memory ran out.
    Memory,
}

impl From<NoMemory> for SessionFault {
    ghost use Rattle.std.specs.Prelude.{◌≡◌};
    ghost use Rattle.pj_session.specs.declared.fault.SessionFault.TheVariants as fault;

    ghost from_gives = { λ _ e. e ≡ fault.Memory };

    fn from(_: NoMemory) -> SessionFault {
        SessionFault::Memory
    }
}
