// The codes of rows.
ghost use Rattle.reactive.specs.Codes.{code_number, has_scope};
ghost use Rattle.std.specs.Prelude.{◌≡◌};
ghost use Rattle.hir.specs.Bytes.{Decodes};

use hir::unknown::Unknown;

// What a row is.
#[derive(Clone, Copy, Debug, PartialEq, Eq)]
pub enum Code {
    Block = 1,
    Instruction = 2,
    Scope = 3,
    Pruned = 4,
    Leaf = 5,
    Logical = 6,
    Conditional = 7,
    Sequence = 8,
    Optional = 9,
    Break = 10,
    Continue = 11,
    Return = 12,
    Throw = 13,
    Switch = 14,
    Case = 15,
    DoWhile = 16,
    While = 17,
    For = 18,
    ForOf = 19,
    ForIn = 20,
    If = 21,
    Label = 22,
    Try = 23,
    Handler = 24,
}

impl Code {
    // Whether a row of this code has a scope.
    pub fn has_scope(self) -> bool
        ensures { result ≡ has_scope (code_number self) }
    {
        matches!(self, Code::Scope | Code::Pruned)
    }
}

// Written out: there is no derive for it.
impl TryFrom<u8> for Code {
    type Error = Unknown;

    ghost try_from_gives = { Decodes code_number 1 24 };

    fn try_from(byte: u8) -> Result<Code, Unknown> {
        match byte {
            1 => Ok(Code::Block),
            2 => Ok(Code::Instruction),
            3 => Ok(Code::Scope),
            4 => Ok(Code::Pruned),
            5 => Ok(Code::Leaf),
            6 => Ok(Code::Logical),
            7 => Ok(Code::Conditional),
            8 => Ok(Code::Sequence),
            9 => Ok(Code::Optional),
            10 => Ok(Code::Break),
            11 => Ok(Code::Continue),
            12 => Ok(Code::Return),
            13 => Ok(Code::Throw),
            14 => Ok(Code::Switch),
            15 => Ok(Code::Case),
            16 => Ok(Code::DoWhile),
            17 => Ok(Code::While),
            18 => Ok(Code::For),
            19 => Ok(Code::ForOf),
            20 => Ok(Code::ForIn),
            21 => Ok(Code::If),
            22 => Ok(Code::Label),
            23 => Ok(Code::Try),
            24 => Ok(Code::Handler),
            _ => Err(Unknown(byte)),
        }
    }
}
