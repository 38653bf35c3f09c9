// The kinds of Leaf, in the order of `InstructionValue`.
ghost use Rattle.reactive.specs.Kinds.{kind_number};
ghost use Rattle.hir.specs.Bytes.{Decodes};

use hir::unknown::Unknown;

// What a Leaf computes.
#[derive(Clone, Copy, Debug, PartialEq, Eq)]
pub enum Kind {
    LoadLocal = 0,
    LoadContext = 1,
    DeclareLocal = 2,
    DeclareContext = 3,
    StoreLocal = 4,
    StoreContext = 5,
    Destructure = 6,
    Primitive = 7,
    JSXText = 8,
    BinaryExpression = 9,
    NewExpression = 10,
    CallExpression = 11,
    MethodCall = 12,
    UnaryExpression = 13,
    TypeCastExpression = 14,
    JsxExpression = 15,
    ObjectExpression = 16,
    ObjectMethod = 17,
    ArrayExpression = 18,
    JsxFragment = 19,
    RegExpLiteral = 20,
    MetaProperty = 21,
    PropertyStore = 22,
    PropertyLoad = 23,
    PropertyDelete = 24,
    ComputedStore = 25,
    ComputedLoad = 26,
    ComputedDelete = 27,
    LoadGlobal = 28,
    StoreGlobal = 29,
    FunctionExpression = 30,
    TaggedTemplateExpression = 31,
    TemplateLiteral = 32,
    Await = 33,
    GetIterator = 34,
    IteratorNext = 35,
    NextPropertyOf = 36,
    PrefixUpdate = 37,
    PostfixUpdate = 38,
    Debugger = 39,
    StartMemoize = 40,
    FinishMemoize = 41,
}

// Written out: there is no derive for it.
impl TryFrom<u8> for Kind {
    type Error = Unknown;

    ghost try_from_gives = { Decodes kind_number 0 41 };

    fn try_from(byte: u8) -> Result<Kind, Unknown> {
        match byte {
            0 => Ok(Kind::LoadLocal),
            1 => Ok(Kind::LoadContext),
            2 => Ok(Kind::DeclareLocal),
            3 => Ok(Kind::DeclareContext),
            4 => Ok(Kind::StoreLocal),
            5 => Ok(Kind::StoreContext),
            6 => Ok(Kind::Destructure),
            7 => Ok(Kind::Primitive),
            8 => Ok(Kind::JSXText),
            9 => Ok(Kind::BinaryExpression),
            10 => Ok(Kind::NewExpression),
            11 => Ok(Kind::CallExpression),
            12 => Ok(Kind::MethodCall),
            13 => Ok(Kind::UnaryExpression),
            14 => Ok(Kind::TypeCastExpression),
            15 => Ok(Kind::JsxExpression),
            16 => Ok(Kind::ObjectExpression),
            17 => Ok(Kind::ObjectMethod),
            18 => Ok(Kind::ArrayExpression),
            19 => Ok(Kind::JsxFragment),
            20 => Ok(Kind::RegExpLiteral),
            21 => Ok(Kind::MetaProperty),
            22 => Ok(Kind::PropertyStore),
            23 => Ok(Kind::PropertyLoad),
            24 => Ok(Kind::PropertyDelete),
            25 => Ok(Kind::ComputedStore),
            26 => Ok(Kind::ComputedLoad),
            27 => Ok(Kind::ComputedDelete),
            28 => Ok(Kind::LoadGlobal),
            29 => Ok(Kind::StoreGlobal),
            30 => Ok(Kind::FunctionExpression),
            31 => Ok(Kind::TaggedTemplateExpression),
            32 => Ok(Kind::TemplateLiteral),
            33 => Ok(Kind::Await),
            34 => Ok(Kind::GetIterator),
            35 => Ok(Kind::IteratorNext),
            36 => Ok(Kind::NextPropertyOf),
            37 => Ok(Kind::PrefixUpdate),
            38 => Ok(Kind::PostfixUpdate),
            39 => Ok(Kind::Debugger),
            40 => Ok(Kind::StartMemoize),
            41 => Ok(Kind::FinishMemoize),
            _ => Err(Unknown(byte)),
        }
    }
}
