// Prints the image that standard input holds, section by section, so that a person can read it.
#![tactic(auto)]

mod tables;

use image_source::source::ImageSource;
use image_tables::load::load;
use image_tables::tables::Tables;
use report::fault::Fault;
use report::faults::print_load_fault;
use report::rows::print_rows;
use std::io;
use std::io::Read;
use std::process::ExitCode;
use tables::{print_functions, print_identifiers, print_list, print_scopes};

// The T sections: own parameters, and the rows by their depth.
fn print_trees(rt: &HostRuntime, tables: &Tables) -> io::Result<()> {
    for (place, panel) in tables.panels.iter().enumerate() {
        print!(rt; "T {place}: parameters")?;
        print_list(rt, panel.parameters.of(&tables.pool), "$")?;
        println!(rt; "")?;
        print_rows(rt, &mut ImageSource::new(panel.content))?;
    }
    Ok(())
}

// Prints an image, or why it is none.
fn dump(rt: &HostRuntime) -> Result<ExitCode, Fault> {
    let mut image = Vec::new(rt.alloc());
    rt.stdin().read_to_end(&mut image)?;
    match load(rt.alloc(), &image) {
        Ok(tables) => {
            print_identifiers(rt, &tables)?;
            print_scopes(rt, &tables)?;
            print_functions(rt, &tables)?;
            print_trees(rt, &tables)?;
            Ok(ExitCode::SUCCESS)
        }
        Err(fault) => {
            print_load_fault(rt, fault)?;
            Ok(ExitCode::FAILURE)
        }
    }
}

// Prints the image, or why it stops.
fn main(rt: HostRuntime) -> ExitCode {
    match dump(&rt) {
        Ok(code) => code,
        Err(fault) => {
            let _ = println!(rt; "{fault}");
            ExitCode::FAILURE
        }
    }
}
