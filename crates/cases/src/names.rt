// Codes and kinds by the names of their cases.
use crate::fault::Fault;
use crate::words::number;
use hir::unknown::Unknown;
use reactive::code::Code;
use reactive::kind::Kind;
use std::alloc::{AllocError, Global};
use std::fmt;

// The names of the cases of an enum, each with its number, at the place of its length: few are as long as one another.
type ByLength = Vec<Vec<(String, u8)>>;

// The names of codes and kinds. The enums write them, once: no derive reads a case by its name.
#[derive(Drop)]
pub struct Names {
    codes: ByLength,
    kinds: ByLength,
}

impl Names {
    // All names.
    pub fn new(heap: Global) -> Result<Names, AllocError> {
        Ok(Names {
            codes: names_of::<Code>(heap)?,
            kinds: names_of::<Kind>(heap)?,
        })
    }

    // The code of a row: its name, or any number.
    pub fn code(&self, text: &str) -> Result<u8, Fault> {
        byte_of(&self.codes, text)
    }

    // The kind of a Leaf: its name, or any number.
    pub fn kind(&self, text: &str) -> Result<u8, Fault> {
        byte_of(&self.kinds, text)
    }
}

// Adds a name with its number.
fn add_name(names: &mut ByLength, heap: Global, name: String, byte: u8) -> Result<(), AllocError> {
    for _ in names.len()..name.len().saturating_add(1) {
        names.push(Vec::new(heap))?;
    }
    if let Some(alike) = names.get_mut(name.len()) {
        alike.push((name, byte))?;
    }
    Ok(())
}

// The names of all cases from 0 on; 0 is called `Nothing` where it stands for no case.
fn names_of<C: TryFrom<u8, Error = Unknown> + fmt::Debug + Drop>(
    heap: Global,
) -> Result<ByLength, AllocError> {
    let mut names = Vec::new(heap);
    for byte in 0..=u8::MAX {
        let name = match C::try_from(byte) {
            Ok(case) => format!(in heap; "{case:?}")?,
            Err(_) if byte == 0 => "Nothing".to_string(heap)?,
            Err(_) => break,
        };
        add_name(&mut names, heap, name, byte)?;
    }
    Ok(names)
}

// The number of a name, or the number that a text is.
fn byte_of(names: &ByLength, text: &str) -> Result<u8, Fault> {
    let alike = names
        .get(text.len())
        .map_or(&[][..], |alike| alike.as_slice());
    match alike.iter().find(|(name, _)| name.as_str() == text) {
        Some((_, byte)) => Ok(*byte),
        None => number(text),
    }
}
