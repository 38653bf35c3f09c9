// Why no image is made.
ghost use Rattle.std.specs.Prelude.{◌≡◌};
ghost use Rattle.image_encode.specs.declared.fault.EncodeFault.TheVariants.{Unfit, Memory};

use std::alloc::{AllocError, AllocFailed};
use std::num::TryFromIntError;

// No image holds these tables and rows, or want of memory.
#[derive(Clone, Copy)]
pub enum EncodeFault {
    Unfit,
    Memory,
}

// A count that four bytes do not hold. By hand, as the others: a derive writes no contract.
impl From<TryFromIntError> for EncodeFault {
    ghost from_gives = { λ _ r. r ≡ Unfit };

    fn from(error: TryFromIntError) -> EncodeFault {
        EncodeFault::Unfit
    }
}

// Beside the other, since `?` needs one for each error of the library.
impl From<AllocError> for EncodeFault {
    ghost from_gives = { λ _ r. r ≡ Memory };

    fn from(error: AllocError) -> EncodeFault {
        EncodeFault::Memory
    }
}

impl<T: Drop> From<AllocFailed<T>> for EncodeFault {
    ghost from_gives = { λ _ r. r ≡ Memory };

    fn from(refused: AllocFailed<T>) -> EncodeFault {
        EncodeFault::Memory
    }
}
