// Why the program stops before the script's end.
ghost use Rattle.std.specs.Prelude.{◌≡◌};
ghost use Rattle.serving.specs.declared.stop.Stop.TheVariants.{NoMemory};

use std::alloc::AllocError;

#[derive(Clone, Copy, Debug, PartialEq, Eq)]
pub enum Stop {
    ReadFault,
    WriteFault,
    NoMemory,
    TooLong,
}

impl From<AllocError> for Stop {
    ghost from_gives = { λ _ stop. stop ≡ NoMemory };

    fn from(_: AllocError) -> Self {
        Stop::NoMemory
    }
}
