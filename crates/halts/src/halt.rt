use std::alloc::{AllocError, AllocFailed};

/// Why a function goes no further: a fault of type `F` in what it reads or evaluates, or an allocation that failed.
#[derive(Clone, Copy, Debug, PartialEq, Eq)]
pub enum Halt<F> {
    Fault(F),
    NoMemory,
}

impl<F> From<AllocError> for Halt<F> {
    ghost use Rattle.std.specs.Prelude.{◌≡◌};
    ghost use Rattle.halts.specs.declared.halt.Halt.TheVariants.{NoMemory};

    ghost from_gives = { λ _ halt. halt ≡ NoMemory };

    fn from(_error: AllocError) -> Halt<F> {
        Halt::NoMemory
    }
}

impl<F, T: Drop> From<AllocFailed<T>> for Halt<F> {
    ghost use Rattle.std.specs.Prelude.{◌≡◌};
    ghost use Rattle.halts.specs.declared.halt.Halt.TheVariants.{NoMemory};

    ghost from_gives = { λ _ halt. halt ≡ NoMemory };

    fn from(_error: AllocFailed<T>) -> Halt<F> {
        Halt::NoMemory
    }
}
