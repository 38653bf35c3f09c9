// An open section of which any bytes may be told to be unread.
ghost use Rattle.std.specs.Prelude.{◌≡◌};
ghost use Rattle.image.specs.Bytes.{see, see_unread};
ghost use Rattle.image.specs.Steps.{Is, held, see_open_any, see_reader, closed_at};

use crate::cursor::{Cursor, Unread};
use crate::fault::SectionFault;
use crate::section::{Reader, Section};

// An open section, of which any bytes may be unread. Like an `Open` it is not `Drop`: `close` or `skip` spends it.
pub struct OpenAny<'a> {
    pub(crate) section: Section<'a>,
    pub(crate) unread: Unread<'a>,
    pub(crate) behind: Cursor<'a>,
}

impl<'a> OpenAny<'a> {
    // The case of the section, with its part of the image.
    pub fn section(&self) -> Section<'a>
        ensures { held result ≡ held self.now.section }
    {
        self.section
    }

    // What is unread of the section.
    pub fn unread(&self) -> Unread<'a>
        ensures { see_unread result ≡ see_unread self.now.unread }
    {
        self.unread
    }

    // What is unread is `rest` now, whatever it is: only `close` asks whether it is empty.
    pub fn read_to(&mut self, rest: Unread<'a>)
        ensures { see_open_any self.new ≡ record { section = held self.old.section; unread = see_unread rest.entry; behind = see self.old.behind } }
    {
        self.unread = rest;
    }

    // Spends the section, and refuses where bytes are left over.
    pub fn close(self) -> Result<Reader<'a>, SectionFault>
        ensures { Is see_reader result (closed_at (see_open_any self.entry)) }
    {
        let OpenAny {
            section: _,
            unread,
            behind,
        } = self;
        if !unread.rest.is_empty() {
            return Err(SectionFault::Left(unread.at));
        }
        Ok(Reader { left: behind })
    }

    // Spends the section, read or not.
    pub fn skip(self) -> Reader<'a>
        ensures { see_reader result ≡ (see_open_any self.entry).behind }
    {
        let OpenAny {
            section: _,
            unread: _,
            behind,
        } = self;
        Reader { left: behind }
    }
}
