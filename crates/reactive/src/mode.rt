// The modes of declarations and stores, in the order of `InstructionKind`.
ghost use Rattle.reactive.specs.Kinds.{mode_number};
ghost use Rattle.hir.specs.Bytes.{Decodes};

use hir::unknown::Unknown;

// How a place is declared or stored to.
#[derive(Clone, Copy, Debug, PartialEq, Eq)]
pub enum Mode {
    Const = 0,
    Let = 1,
    Reassign = 2,
    Catch = 3,
    HoistedConst = 4,
    HoistedLet = 5,
    HoistedFunction = 6,
    Function = 7,
}

// Written out: there is no derive for it.
impl TryFrom<u8> for Mode {
    type Error = Unknown;

    ghost try_from_gives = { Decodes mode_number 0 7 };

    fn try_from(byte: u8) -> Result<Mode, Unknown> {
        match byte {
            0 => Ok(Mode::Const),
            1 => Ok(Mode::Let),
            2 => Ok(Mode::Reassign),
            3 => Ok(Mode::Catch),
            4 => Ok(Mode::HoistedConst),
            5 => Ok(Mode::HoistedLet),
            6 => Ok(Mode::HoistedFunction),
            7 => Ok(Mode::Function),
            _ => Err(Unknown(byte)),
        }
    }
}
