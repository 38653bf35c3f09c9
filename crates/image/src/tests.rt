// A section opened, read and spent, as an `Open` and as one that is told anything.
use crate::cursor::Unread;
use crate::fault::SectionFault;
use crate::open_any::OpenAny;
use crate::section::{Reader, Section};

// An image with an I of two bytes.
const IMAGE: [u8; 8] = [1, 0, 0, 0, 3, b'I', 7, 8];

// Where the content begins and where the reader stands, once so many bytes of it are read.
fn closed(image: &[u8], size: usize) -> Result<(usize, usize), SectionFault> {
    let mut part = Reader::new(image)?.open()?;
    let content = part.unread();
    if let Some((_, rest)) = content.split(size) {
        part.read_to(rest);
    }
    Ok((content.at, part.close()?.at()))
}

// Whether the section is an I of the bytes 7 and 8, and where the reader stands behind it.
fn skipped(image: &[u8]) -> Result<(bool, usize), SectionFault> {
    let part = Reader::new(image)?.open()?;
    let holds = matches!(part.section(), Section::Identifiers([7, 8]));
    Ok((holds, part.skip().at()))
}

// Where the reader stands, once the section is told what is unread of it.
fn told(image: &[u8], unread: Unread) -> Result<usize, SectionFault> {
    let mut part = OpenAny::from(Reader::new(image)?.open()?);
    part.read_to(unread);
    Ok(part.close()?.at())
}

#[test]
fn closed_at_its_end(rt: HostRuntime) {
    assert!(rt; matches!(closed(&IMAGE, 2), Ok((6, 8))));
    assert!(rt; matches!(closed(&IMAGE, 1), Err(SectionFault::Left(7))));
}

#[test]
fn skipped_unread(rt: HostRuntime) {
    assert!(rt; matches!(skipped(&IMAGE), Ok((true, 8))));
}

#[test]
fn told_of_a_last_byte(rt: HostRuntime) {
    let last = Unread {
        rest: &[9],
        at: usize::MAX,
    };
    assert!(rt; matches!(told(&IMAGE, last), Err(SectionFault::Left(usize::MAX))));
}
