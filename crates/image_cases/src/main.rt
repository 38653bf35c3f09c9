// Checks the images of standard input, a line for each: a name, and the bytes in hexadecimal. Prints what the check answers,
// and of an image also whether what is loaded from it and encoded again has the same bytes.
#![tactic(auto)]

mod again;

use again::is_encoded_alike;
use hex::FromHexError;
use image_check::check::check_image;
use image_tables::fault::LoadFault;
use report::fault::Fault;
use report::faults::print_load_fault;
use std::alloc::AllocError;
use std::io;

// Checks the image of a line.
fn check_line(rt: &HostRuntime, line: &str) -> Result<(), Fault> {
    let (name, text) = line.split_once(':').ok_or(Fault::Line)?;
    let image = hex::decode(rt.alloc(), text.trim()).map_err(|e| match e {
        FromHexError::OutOfMemory => Fault::Memory(AllocError),
        _ => Fault::Line,
    })?;
    match check_image(&image) {
        Ok(()) if is_encoded_alike(rt.alloc(), &image)? => println!(rt; "{name}: an image")?,
        Ok(()) => println!(rt; "{name}: an image, but encoded otherwise")?,
        Err(fault) => {
            print!(rt; "{name}: ")?;
            print_load_fault(rt, LoadFault::from(fault))?;
        }
    }
    Ok(())
}

// Checks all lines.
fn check_all(rt: &HostRuntime) -> Result<(), Fault> {
    let text = io::read_to_string(rt.alloc(), rt.stdin())?;
    for line in text.lines() {
        check_line(rt, line)?;
    }
    Ok(())
}

// Checks the images, or prints why it stops.
fn main(rt: HostRuntime) -> io::Result<()> {
    match check_all(&rt) {
        Ok(()) => Ok(()),
        Err(fault) => println!(rt; "{fault}"),
    }
}
