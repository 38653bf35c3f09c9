// Promoted names as text.
use calls::gifts::spell;
use hir::environment::Environment;
use hir::ids::IdentifierId;
use naming::decimal::Decimal;
use std::io;

// Prints the promoted name of an identifier in digits, or `?` where it has none.
pub fn print_name(rt: &HostRuntime, env: &Environment, id: IdentifierId) -> io::Result<()> {
    let mut text = [0u8; 12];
    match spell(env, id, &Decimal, &mut text) {
        Ok(length) => print!(rt; "{}", text[..length].escape_ascii()),
        Err(_) => print!(rt; "?"),
    }
}
