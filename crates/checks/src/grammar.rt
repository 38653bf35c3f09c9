// Which children a row may have, in order.
ghost use Rattle.std.specs.Prelude.{◌≡◌};
ghost use Rattle.std.specs.Option.{option_map};
ghost use Rattle.reactive.specs.Codes.{code_number};
ghost use Rattle.checks.specs.Grammar.{admits, slots, children, follow, lacking};

use reactive::code::Code;

// A sort of row.
#[derive(Clone, Copy)]
pub enum Sort {
    Block,
    Statement,
    Instruction,
    Value,
    Case,
    Handler,
}

// The places for children that an open row has left, in order: one case for each list that occurs, so that no list is searched.
#[derive(Clone, Copy, Default)]
pub enum Places {
    #[default]
    Nothing,
    Statements,
    Cases,
    InstructionsThenValue,
    OptionalBlock,
    OptionalValue,
    Block,
    BlockThenOptionalBlock,
    BlockThenOptionalValue,
    BlockThenValue,
    BlockThenHandler,
    Handler,
    Value,
    ValueThenBlock,
    ValueThenBlockThenOptionalValue,
    TwoValues,
    TwoValuesThenBlock,
    TwoValuesThenBlockThenOptionalValue,
    ThreeValues,
}

impl Sort {
    // Whether a row of this code is of the sort.
    pub fn admits(self, code: Code) -> bool
        ensures { result ≡ admits self (code_number code) }
    {
        match self {
            Sort::Block => code == Code::Block,
            Sort::Statement => matches!(
                code,
                Code::Instruction
                    | Code::Scope
                    | Code::Pruned
                    | Code::Break
                    | Code::Continue
                    | Code::Return
                    | Code::Throw
                    | Code::Switch
                    | Code::DoWhile
                    | Code::While
                    | Code::For
                    | Code::ForOf
                    | Code::ForIn
                    | Code::If
                    | Code::Label
                    | Code::Try
            ),
            Sort::Instruction => code == Code::Instruction,
            Sort::Value => matches!(
                code,
                Code::Leaf | Code::Logical | Code::Conditional | Code::Sequence | Code::Optional
            ),
            Sort::Case => code == Code::Case,
            Sort::Handler => code == Code::Handler,
        }
    }
}

impl Places {
    // Whether a child is missing.
    pub fn lack(self) -> bool
        ensures { result ≡ lacking (slots self) }
    {
        !matches!(
            self,
            Places::Nothing
                | Places::Statements
                | Places::Cases
                | Places::OptionalBlock
                | Places::OptionalValue
        )
    }

    // The places that are left after a child of this code, or none where it may not come.
    pub fn follow(self, code: Code) -> Option<Places>
        ensures { option_map slots result ≡ follow (slots self) (code_number code) }
    {
        let (sort, rest) = match self {
            Places::Nothing => return None,
            Places::Statements => (Sort::Statement, Places::Statements),
            Places::Cases => (Sort::Case, Places::Cases),
            Places::InstructionsThenValue if code == Code::Instruction => return Some(self),
            Places::OptionalBlock | Places::Block => (Sort::Block, Places::Nothing),
            Places::BlockThenOptionalBlock => (Sort::Block, Places::OptionalBlock),
            Places::BlockThenOptionalValue => (Sort::Block, Places::OptionalValue),
            Places::BlockThenValue => (Sort::Block, Places::Value),
            Places::BlockThenHandler => (Sort::Block, Places::Handler),
            Places::Handler => (Sort::Handler, Places::Nothing),
            Places::OptionalValue | Places::Value | Places::InstructionsThenValue => {
                (Sort::Value, Places::Nothing)
            }
            Places::ValueThenBlock => (Sort::Value, Places::Block),
            Places::ValueThenBlockThenOptionalValue => {
                (Sort::Value, Places::BlockThenOptionalValue)
            }
            Places::TwoValues => (Sort::Value, Places::Value),
            Places::TwoValuesThenBlock => (Sort::Value, Places::ValueThenBlock),
            Places::TwoValuesThenBlockThenOptionalValue => {
                (Sort::Value, Places::ValueThenBlockThenOptionalValue)
            }
            Places::ThreeValues => (Sort::Value, Places::TwoValues),
        };
        sort.admits(code).then_some(rest)
    }
}

// The places of a row of this code.
pub fn children(code: Code) -> Places
    ensures { slots result ≡ children (code_number code) }
{
    match code {
        Code::Block => Places::Statements,
        Code::Instruction | Code::Optional => Places::Value,
        Code::Scope | Code::Pruned | Code::Label | Code::Handler => Places::Block,
        Code::Leaf | Code::Break | Code::Continue | Code::Return | Code::Throw => Places::Nothing,
        Code::Logical => Places::TwoValues,
        Code::Conditional => Places::ThreeValues,
        Code::Sequence => Places::InstructionsThenValue,
        Code::Switch => Places::Cases,
        Code::Case => Places::OptionalBlock,
        Code::DoWhile => Places::BlockThenValue,
        Code::While | Code::ForIn => Places::ValueThenBlock,
        Code::For => Places::TwoValuesThenBlockThenOptionalValue,
        Code::ForOf => Places::TwoValuesThenBlock,
        Code::If => Places::BlockThenOptionalBlock,
        Code::Try => Places::BlockThenHandler,
    }
}
