// Why a program stops before its end.
use std::alloc::AllocError;
use std::io;
use thiserror::Error;

#[derive(Debug, Drop, Error)]
pub enum Fault {
    #[error("memory\tthere is too little")]
    Memory(#[from(alloc)] AllocError),
    #[error("stream\t{0}")]
    Stream(#[from] io::Error),
    #[error("line\ta line of the input has another form")]
    Line,
}
