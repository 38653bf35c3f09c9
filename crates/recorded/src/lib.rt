// Recorded functions, whose answers by the definitions of the reasons are those of the Rust.
#![tactic(auto)]

ghost use Rattle.std.specs.Prelude.{◌≡◌, length, map};
ghost use Rattle.recorded.specs.Recorded.{functions};
ghost use Rattle.recorded.specs.Tables.{by_definitions, by_rust};

// How many recorded functions there are; each run's journal and tags are worked out from the definitions.
pub fn recorded_functions() -> u8
    ensures count { result ≡ length functions }
    ensures answers { map by_definitions functions ≡ map by_rust functions }
{
    233
}
