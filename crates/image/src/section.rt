// Layer 2: a version byte, then sections to the image's end.
ghost use Rattle.std.specs.Prelude.{◌≡◌, ℕ, ◌+◌, ◌^◌, ◌<◌, ◌≤◌, length, IfOk, ◌==◌};
ghost use Rattle.image.specs.Bytes.{Inside, see};
ghost use Rattle.image.specs.Steps.{Is, held, see_open, see_open_any, see_reader, section_at, opened_at, closed_at, version_at};

use crate::cursor::{Cursor, Unread};
use crate::fault::{ByteFault, SectionFault};
use crate::open_any::OpenAny;

// A section reads as one of four cases, each with its part of the image: a rule of this project.
#[derive(Clone, Copy)]
pub enum Section<'a> {
    Identifiers(&'a [u8]),
    Scope(&'a [u8]),
    Function(&'a [u8]),
    Tree(&'a [u8]),
}

// What is left of an image while no section is open.
#[derive(Drop)]
pub struct Reader<'a> {
    pub(crate) left: Cursor<'a>,
}

// An open section, of which bytes are unread whose end can be named. It is not `Drop`: `close` or `skip` spends it and gives
// the reader back.
pub struct Open<'a> {
    section: Section<'a>,
    unread: Cursor<'a>,
    behind: Cursor<'a>,
}

impl<'a> Reader<'a> {
    // The sections of an image of version 1.
    pub fn new(image: &'a [u8]) -> Result<Reader<'a>, SectionFault>
        ensures is { Is see_reader result (version_at image.now) }
        ensures shorter { IfOk result (λ v. length (see_reader v).1 < length image.now) }
    {
        let (version, left) = Cursor::new(image).read_u8()?;
        if version != 1 {
            return Err(SectionFault::Version);
        }
        Ok(Reader { left })
    }

    // The byte of the image at which the next section begins.
    pub fn at(&self) -> usize
        ensures { result ≡ self.now.left.at }
    {
        self.left.at
    }

    // Whether no section is left.
    pub fn is_done(&self) -> bool
        ensures { result ≡ (length self.now.left.rest.now == 0) }
    {
        self.left.is_empty()
    }

    // Opens the next section.
    pub fn open(self) -> Result<Open<'a>, SectionFault>
        ensures is { Is see_open result (section_at (see_reader self.entry)) }
        ensures fresh { IfOk result (λ o. (see_open o).unread.1 ≡ (see_open o).section.bytes) }
        ensures inside { IfOk result (λ o. Inside (see_open o).unread) }
        ensures shorter { IfOk result (λ o. length o.behind.rest.now < length self.entry.left.rest.now) }
    {
        let OpenAny {
            section,
            unread: Unread { rest, at },
            behind,
        } = self.open_any()?;
        let unread = Cursor { rest, at };
        Ok(Open {
            section,
            unread,
            behind,
        })
    }

    // Opens the next section, of which any bytes may then be told to be unread.
    pub fn open_any(self) -> Result<OpenAny<'a>, SectionFault>
        ensures is { Is see_open_any result (section_at (see_reader self.entry)) }
        ensures fresh { IfOk result (λ o. (see_open_any o).unread.1 ≡ (see_open_any o).section.bytes) }
        ensures inside { IfOk result (λ o. Inside (see_open_any o).unread) }
        ensures shorter { IfOk result (λ o. length o.behind.rest.now < length self.entry.left.rest.now) }
    {
        let Reader { left } = self;
        match left.rest {
            [a, b, c, d, letter, rest @ ..] => {
                let size = u32::from_be_bytes([*a, *b, *c, *d]) as usize;
                let content = Cursor {
                    rest,
                    at: left.at + 5,
                };
                opened(left.at, size, *letter, content)
            }
            [0, 0, 0, 0] => Err(SectionFault::Bytes(ByteFault { at: left.at + 4 })),
            _ => Err(SectionFault::Bytes(ByteFault { at: left.at })),
        }
    }
}

impl<'a> Open<'a> {
    // The case of the section, with its part of the image.
    pub fn section(&self) -> Section<'a>
        ensures { held result ≡ held self.now.section }
    {
        self.section
    }

    // What is unread of the section.
    pub fn unread(&self) -> Cursor<'a>
        ensures { see result ≡ see self.now.unread }
    {
        self.unread
    }

    // What is unread is `rest` now.
    pub fn read_to(&mut self, rest: Cursor<'a>)
        ensures { see_open self.new ≡ record { section = held self.old.section; unread = see rest.entry; behind = see self.old.behind } }
    {
        self.unread = rest;
    }

    // Spends the section, and refuses where bytes are left over.
    pub fn close(self) -> Result<Reader<'a>, SectionFault>
        ensures { Is see_reader result (closed_at (see_open self.entry)) }
    {
        OpenAny::from(self).close()
    }

    // Spends the section, read or not.
    pub fn skip(self) -> Reader<'a>
        ensures { see_reader result ≡ (see_open self.entry).behind }
    {
        OpenAny::from(self).skip()
    }
}

impl<'a> From<Open<'a>> for OpenAny<'a> {
    ghost use Rattle.image.specs.Steps.{see_open, see_open_any};

    ghost from_gives = { λ o a. see_open_any a ≡ see_open o };

    fn from(part: Open<'a>) -> OpenAny<'a> {
        let Open {
            section,
            unread,
            behind,
        } = part;
        OpenAny {
            section,
            unread: Unread::from(unread),
            behind,
        }
    }
}

// The section at `at`, whose length says `size`: `content` is what follows its letter.
fn opened<'a>(
    at: usize,
    size: usize,
    letter: u8,
    content: Cursor<'a>,
) -> Result<OpenAny<'a>, SectionFault>
    requires { content.at ≡ at + 5 }
    ensures is { Is see_open_any result (opened_at at size letter content.entry.rest.now) }
    ensures fresh { IfOk result (λ o. (see_open_any o).unread.1 ≡ (see_open_any o).section.bytes) }
    ensures inside { IfOk result (λ o. Inside (see_open_any o).unread) }
    ensures shorter { IfOk result (λ o. length o.behind.rest.now ≤ length content.entry.rest.now) }
{
    if size == 0 {
        return Err(SectionFault::Bytes(ByteFault { at: at + 4 }));
    }
    let Some((unread, behind)) = content.split(size - 1) else {
        return Err(SectionFault::Bytes(ByteFault { at }));
    };
    let section = match letter {
        b'I' => Section::Identifiers(unread.rest),
        b'S' => Section::Scope(unread.rest),
        b'F' => Section::Function(unread.rest),
        b'T' => Section::Tree(unread.rest),
        _ => return Err(SectionFault::Letter(at + 4)),
    };
    Ok(OpenAny {
        section,
        unread: Unread::from(unread),
        behind,
    })
}
