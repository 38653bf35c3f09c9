// The order of sections.
ghost use Rattle.std.specs.Prelude.{◌≡◌, Some, None};
ghost use Rattle.image.specs.Format.{due};
ghost use Rattle.image.specs.Steps.{held};
ghost use Rattle.image_check.specs.Ranks.{rank_number, stage_of};

use image::section::Section;

// The place of a section: one I, any S, any F, any T. Apart from `Section`, since the last one is kept without its bytes.
#[derive(Clone, Copy, PartialEq, PartialOrd)]
pub enum Rank {
    Identifiers,
    Scope,
    Function,
    Tree,
}

// The rank of a section, by its letter.
impl<'a> From<Section<'a>> for Rank {
    ghost from_gives = { λ s r. rank_number r ≡ (held s).rank };

    fn from(section: Section<'a>) -> Rank {
        match section {
            Section::Identifiers(_) => Rank::Identifiers,
            Section::Scope(_) => Rank::Scope,
            Section::Function(_) => Rank::Function,
            Section::Tree(_) => Rank::Tree,
        }
    }
}

impl Rank {
    // Whether a section of this rank may follow one of rank `last`: I where none has come, and later no second I
    // and no rank below the last.
    pub fn may_follow(self, last: Option<Rank>) -> bool
        ensures { result ≡ due (stage_of last) (rank_number self) }
    {
        match last {
            None => self == Rank::Identifiers,
            Some(last) => self != Rank::Identifiers && self >= last,
        }
    }
}
