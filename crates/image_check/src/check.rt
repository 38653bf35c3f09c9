// A whole image: one I, any S, any F, any T.
ghost use Rattle.std.specs.Prelude.{◌≡◌, ℕ, ◌+◌, ◌<◌, ◌≤◌, length, IfOk, Some};
ghost use Rattle.image.specs.Bytes.{Inside, see};
ghost use Rattle.image.specs.Steps.{Is, see_open_any, see_reader, ended, passed, in_section};
ghost use Rattle.image_check.specs.Ranks.{rank_number, stage_of};
ghost use Rattle.image_check.specs.Steps.{lists_end, content_at, spent_at, one_at, staged, goes_on, image_at};
ghost use Rattle.image_check.specs.Verdicts.{Verdict};

use crate::rank::Rank;
use hir::span::MOST_OPEN;
use image::cursor::{Cursor, Unread};
use image::fault::{RowFault, SectionFault};
use image::open_any::OpenAny;
use image::row::check_row;
use image::section::Reader;

// What follows this many lists.
#[tactic(auto, using(crate::proofs::Lists::lists_next))]
fn past_lists<'a>(cursor: Cursor<'a>, count: u8) -> Result<Cursor<'a>, SectionFault>
    ensures { Is see result (in_section (lists_end count (see cursor.entry))) }
{
    let mut rest = cursor;
    for _ in 0..count {
        (_, rest) = rest.read_numbers()?;
    }
    Ok(rest)
}

// How far the content of a section reads: whole identifier rows, the three lists of a scope, the two of a function,
// or own parameters and row 0.
fn check_content<'a>(rank: Rank, content: Cursor<'a>) -> Result<Cursor<'a>, RowFault>
    ensures { Is see result (ended (content_at (rank_number rank) (see content.entry))) }
{
    match rank {
        Rank::Identifiers => Ok(content.past(content.rest.len() / 5 * 5)),
        Rank::Scope => Ok(past_lists(content, 3)?),
        Rank::Function => Ok(past_lists(content, 2)?),
        Rank::Tree => check_row(past_lists(content, 1)?, MOST_OPEN as u8),
    }
}

// Reads an open section to its end, and spends it.
fn check_open<'a>(mut part: OpenAny<'a>) -> Result<Reader<'a>, RowFault>
    requires { Inside (see_open_any part).unread }
    ensures is { Is see_reader result (ended (spent_at (see_open_any part.entry))) }
    ensures behind { IfOk result (λ v. see_reader v ≡ (see_open_any part.entry).behind) }
{
    let Unread { rest, at } = part.unread();
    match check_content(Rank::from(part.section()), Cursor { rest, at }) {
        Ok(rest) => {
            part.read_to(Unread::from(rest));
            Ok(part.close()?)
        }
        Err(fault) => {
            let _ = part.skip();
            Err(fault)
        }
    }
}

// The sections of an image that are left to check, and the rank of the last that was checked.
#[derive(Drop)]
struct Sections<'a> {
    reader: Reader<'a>,
    last: Option<Rank>,
}

impl<'a> Sections<'a> {
    // Whether a section is due, or more is there.
    fn is_more(&self) -> bool
        ensures { result ≡ goes_on (stage_of self.now.last) (see_reader self.now.reader) }
    {
        self.last.is_none() || !self.reader.is_done()
    }

    // Checks one section: those behind it.
    fn check_next(self) -> Result<Sections<'a>, RowFault>
        ensures is { Is (λ v. (stage_of v.last, see_reader v.reader)) result (staged (one_at (stage_of self.entry.last) (see_reader self.entry.reader))) }
        ensures shorter { IfOk result (λ v. length (see_reader v.reader).1 < length (see_reader self.entry.reader).1) }
    {
        let Sections { reader, last } = self;
        let at = reader.at();
        let part = reader.open_any()?;
        let rank = Rank::from(part.section());
        if !rank.may_follow(last) {
            let _ = part.skip();
            return Err(RowFault::Section(SectionFault::Letter(at + 4)));
        }
        let reader = check_open(part)?;
        let last = Some(rank);
        Ok(Sections { reader, last })
    }
}

// Reads the sections of an image to its end.
#[tactic(auto, using(crate::proofs::Sections::begin, crate::proofs::Sections::turn))]
fn check_sections(image: &[u8]) -> Result<(), RowFault>
    ensures { Is (λ v. v) result (passed (image_at image.now)) }
{
    let reader = Reader::new(image)?;
    let mut sections = Sections { reader, last: None };
    while sections.is_more() {
        sections = sections.check_next()?;
    }
    Ok(())
}

// Whether the bytes are an image, and else their first fault.
pub fn check_image(image: &[u8]) -> Result<(), RowFault>
    ensures { Verdict image.now result }
{
    check_sections(image)
}
