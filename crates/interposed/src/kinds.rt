// How the kinds of Leaf are treated directly under an Instruction, by the bytes that rows have: else each call would decode them first.
ghost use Rattle.std.specs.Prelude.{◌≡◌};
ghost use Rattle.interposed.specs.Kinds.{is_load, is_property_load, is_global_load, is_store, is_constant, is_barrier, fixes_marks, may_raise};

use reactive::kind::Kind;
use reactive::mode::Mode;

// The loads of a place.
pub fn is_load(kind: u8) -> bool
    ensures { result ≡ is_load kind }
{
    matches!(
        Kind::try_from(kind),
        Ok(Kind::LoadLocal | Kind::LoadContext)
    )
}

// The loads of a property.
pub fn is_property_load(kind: u8) -> bool
    ensures { result ≡ is_property_load kind }
{
    matches!(
        Kind::try_from(kind),
        Ok(Kind::PropertyLoad | Kind::ComputedLoad)
    )
}

// A global load.
pub fn is_global_load(kind: u8) -> bool
    ensures { result ≡ is_global_load kind }
{
    kind == Kind::LoadGlobal as u8
}

// The kinds that store to their marks.
fn is_store(kind: u8) -> bool
    ensures { result ≡ is_store kind }
{
    matches!(
        Kind::try_from(kind),
        Ok(Kind::StoreLocal | Kind::StoreContext | Kind::Destructure)
    )
}

// The modes of a constant.
fn is_constant(mode: u8) -> bool
    ensures { result ≡ is_constant mode }
{
    matches!(Mode::try_from(mode), Ok(Mode::Const | Mode::HoistedConst))
}

// The kinds after which other code may have run.
pub fn is_barrier(kind: u8) -> bool
    ensures { result ≡ is_barrier kind }
{
    is_store(kind)
        || matches!(
            Kind::try_from(kind),
            Ok(
                Kind::CallExpression
                    | Kind::MethodCall
                    | Kind::PropertyStore
                    | Kind::PropertyDelete
                    | Kind::ComputedStore
                    | Kind::ComputedDelete
                    | Kind::StoreGlobal
                    | Kind::Await
                    | Kind::PrefixUpdate
                    | Kind::PostfixUpdate
            )
        )
}

// Whether the marks become constant: those of a method call, and those declared or stored to as a constant.
pub fn fixes_marks(kind: u8, mode: u8) -> bool
    ensures { result ≡ fixes_marks kind mode }
{
    match Kind::try_from(kind) {
        Ok(Kind::MethodCall) => true,
        Ok(Kind::DeclareLocal | Kind::DeclareContext) => is_constant(mode),
        _ => is_store(kind) && is_constant(mode),
    }
}

// Whether a barrier is raised where the lvalue is absent or named.
pub fn may_raise(kind: u8, mode: u8) -> bool
    ensures { result ≡ may_raise kind mode }
{
    is_barrier(kind) && !(is_store(kind) && is_constant(mode))
}
