ghost use Rattle.std.specs.Prelude.{◌≡◌};
ghost use Rattle.reasons.specs.Small.{SmallFunctions};

// How many small functions there are whose journals are worked out from the definitions.
pub fn small_functions() -> u8
    ensures count { result ≡ 12 }
    ensures journals { SmallFunctions }
{
    12
}
