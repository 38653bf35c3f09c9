// Faults, layer by layer: each upper fault carries the lower one whole.
ghost use Rattle.std.specs.Prelude.{◌≡◌};
ghost use Rattle.image.specs.declared.fault.SectionFault.TheVariants.{Bytes};
ghost use Rattle.image.specs.declared.fault.RowFault.TheVariants.{Section};
ghost use Rattle.image.specs.Faults.{cause_number, layer_number, cause_of, byte_of, layer_of};

// Layer 1: a length, a count or a field at this byte passes its holder, or is missing there.
#[derive(Clone, Copy)]
pub struct ByteFault {
    pub at: usize,
}

// Layer 2: the version, the letter at this byte, the first byte left over, or what layer 1 says.
#[derive(Clone, Copy)]
pub enum SectionFault {
    Version,
    Letter(usize),
    Left(usize),
    Bytes(ByteFault),
}

// Layer 3: the row at this byte lies too deep, or what layer 2 says.
#[derive(Clone, Copy)]
pub enum RowFault {
    Deep(usize),
    Section(SectionFault),
}

// What is refused of an image, under its number.
#[derive(Clone, Copy, PartialEq)]
pub enum Cause {
    Depth = 7,
    Version = 13,
    Bytes = 14,
    Section = 15,
}

// The layers of the reader, under their numbers.
#[derive(Clone, Copy, PartialEq)]
pub enum Layer {
    Bytes = 1,
    Sections = 2,
    Rows = 3,
}

impl Cause {
    // The number of the refusal. A method and no From: the name says what the byte is.
    pub fn number(self) -> u8
        ensures { result ≡ cause_number self }
    {
        self as u8
    }
}

impl Layer {
    // Its number, from the bytes up. A method and no From: the name says what the byte is.
    pub fn number(self) -> u8
        ensures { result ≡ layer_number self }
    {
        self as u8
    }
}

// By hand, as the next: a derive writes no contract.
impl From<ByteFault> for SectionFault {
    ghost from_gives = { λ f r. r ≡ Bytes f };

    fn from(fault: ByteFault) -> SectionFault {
        SectionFault::Bytes(fault)
    }
}

impl From<SectionFault> for RowFault {
    ghost from_gives = { λ f r. r ≡ Section f };

    fn from(fault: SectionFault) -> RowFault {
        RowFault::Section(fault)
    }
}

impl RowFault {
    // What is refused.
    pub fn cause(self) -> Cause
        ensures { cause_number result ≡ cause_of self }
    {
        match self {
            RowFault::Deep(_) => Cause::Depth,
            RowFault::Section(SectionFault::Version) => Cause::Version,
            RowFault::Section(SectionFault::Bytes(_)) => Cause::Bytes,
            RowFault::Section(SectionFault::Letter(_) | SectionFault::Left(_)) => Cause::Section,
        }
    }

    // The byte of the image at which it lies.
    pub fn byte(self) -> usize
        ensures { result ≡ byte_of self }
    {
        match self {
            RowFault::Section(SectionFault::Version) => 0,
            RowFault::Section(SectionFault::Bytes(fault)) => fault.at,
            RowFault::Deep(at)
            | RowFault::Section(SectionFault::Letter(at) | SectionFault::Left(at)) => at,
        }
    }

    // The layer that found it.
    pub fn layer(self) -> Layer
        ensures { layer_number result ≡ layer_of self }
    {
        match self {
            RowFault::Deep(_) => Layer::Rows,
            RowFault::Section(SectionFault::Bytes(_)) => Layer::Bytes,
            RowFault::Section(_) => Layer::Sections,
        }
    }
}
