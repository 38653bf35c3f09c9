// Why tables are not filled.
ghost use Rattle.std.specs.Prelude.{◌≡◌};
ghost use Rattle.image_tables.specs.declared.fault.LoadFault.TheVariants.{Image, Memory};
ghost use Rattle.image.specs.declared.fault.RowFault.TheVariants.{Section};
ghost use Rattle.image.specs.declared.fault.SectionFault.TheVariants.{Bytes};

use image::fault::{ByteFault, RowFault, SectionFault};
use std::alloc::{AllocError, AllocFailed};

// An image of 4 GiB or more, the first fault of bytes that are no image, or want of memory.
#[derive(Clone, Copy)]
pub enum LoadFault {
    Limit,
    Image(RowFault),
    Memory,
}

// By hand, as all below: a derive writes no contract.
impl From<RowFault> for LoadFault {
    ghost from_gives = { λ f r. r ≡ Image f };

    fn from(fault: RowFault) -> LoadFault {
        LoadFault::Image(fault)
    }
}

impl From<SectionFault> for LoadFault {
    ghost from_gives = { λ f r. r ≡ Image (Section f) };

    fn from(fault: SectionFault) -> LoadFault {
        LoadFault::Image(RowFault::Section(fault))
    }
}

// For callers that read bytes themselves.
impl From<ByteFault> for LoadFault {
    ghost from_gives = { λ f r. r ≡ Image (Section (Bytes f)) };

    fn from(fault: ByteFault) -> LoadFault {
        LoadFault::Image(RowFault::Section(SectionFault::Bytes(fault)))
    }
}

// For callers: an allocation that hands its value back.
impl<T: Drop> From<AllocFailed<T>> for LoadFault {
    ghost from_gives = { λ _ r. r ≡ Memory };

    fn from(refused: AllocFailed<T>) -> LoadFault {
        LoadFault::Memory
    }
}

// Beside the one above, since `?` needs one for each error of the library.
impl From<AllocError> for LoadFault {
    ghost from_gives = { λ _ r. r ≡ Memory };

    fn from(error: AllocError) -> LoadFault {
        LoadFault::Memory
    }
}
