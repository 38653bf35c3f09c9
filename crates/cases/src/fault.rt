// Why a program of cases stops before its end.
use std::alloc::AllocError;
use std::io;
use std::num::ParseIntError;
use std::str::Utf8Error;
use thiserror::Error;

#[derive(Debug, Drop, Error)]
pub enum Fault {
    #[error("no memory")]
    Memory(#[from(alloc)] AllocError),
    #[error("input or output failed")]
    Stream(#[from] io::Error),
    #[error("bad line")]
    Line,
    #[error("a source was not rewound")]
    NotRewound,
}

// By hand, since a derive would need a variant for each of the two errors that are told alike.
impl From<ParseIntError> for Fault {
    fn from(_e: ParseIntError) -> Fault {
        Fault::Line
    }
}

impl From<Utf8Error> for Fault {
    fn from(_e: Utf8Error) -> Fault {
        Fault::Line
    }
}
