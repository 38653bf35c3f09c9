// Why no tables come of an image, as text.
use image::fault::{Cause, RowFault};
use image_tables::fault::LoadFault;
use std::io;

// What a fault of an image means.
fn cause_words(cause: Cause) -> &'static str {
    match cause {
        Cause::Depth => "a row lies too deep",
        Cause::Version => "the version is not 1",
        Cause::Bytes => "a length, count or field passes its holder, or is missing",
        Cause::Section => "a letter that may not stand here, or a byte left over",
    }
}

// The fault on a line for scripts: cause, byte, layer and words, a tab before each.
pub fn print_fault(rt: &HostRuntime, fault: RowFault) -> io::Result<()> {
    println!(rt;
        "fault\t{}\t{}\t{}\t{}",
        fault.cause().number(),
        fault.byte(),
        fault.layer().number(),
        cause_words(fault.cause())
    )
}

// Why an image gave no tables.
pub fn print_load_fault(rt: &HostRuntime, fault: LoadFault) -> io::Result<()> {
    match fault {
        LoadFault::Image(fault) => print_fault(rt, fault),
        LoadFault::Limit => println!(rt; "limit\tan image has fewer than 4294967296 bytes"),
        LoadFault::Memory => println!(rt; "memory\tthere is too little"),
    }
}
