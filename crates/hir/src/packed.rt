// What scratch notes of links, recordings and epochs, each in four bytes: an Option has a tag of its own, which takes four
// more in each of its rows.
ghost use Rattle.std.specs.Prelude.{◌≡◌, ℕ, ◌+◌, ◌^◌, ◌<◌, Some};
ghost use Rattle.hir.specs.Packed.{epoch_of, of_link};

use std::marker::Model;

// The trail row of an active scope, or none.
pub type Link = Option<u32>;

// A link: 0 for none, else one more than the trail row.
#[derive(Clone, Copy, Default, PartialEq)]
pub struct PackedLink {
    word: u32,
}

impl Model for PackedLink {
    ghost use Rattle.std.specs.Prelude.{ℕ, Option};
    ghost use Rattle.hir.specs.Packed.{link_of, of_link, link_back};

    ghost Value = { Option ℕ };

    ghost view = { λ p. link_of p.word };

    ghost inverse = { λ l. record { word = of_link l } };

    ghost inverse_ok = { λ p h i. record { word = link_back p.word i } };
}

impl PackedLink {
    // Packs a link.
    pub fn new(link: Link) -> PackedLink
        requires { of_link link < 2 ^ 32 }
        ensures { result ≡ link }
    {
        match link {
            Some(row) => PackedLink { word: row + 1 },
            None => PackedLink { word: 0 },
        }
    }

    // The link.
    pub fn get(self) -> Link
        ensures { result ≡ self }
    {
        match self.word {
            0 => None,
            word => Some(word - 1),
        }
    }
}

// A recording under a link, or none: 0 for none, else one more than the packed link.
#[derive(Clone, Copy, Default, PartialEq)]
pub struct PackedRecording {
    word: u32,
}

impl Model for PackedRecording {
    ghost use Rattle.std.specs.Prelude.{ℕ, Option};
    ghost use Rattle.hir.specs.Packed.{recording_of, of_recording, recording_back};

    ghost Value = { Option (Option ℕ) };

    ghost view = { λ p. recording_of p.word };

    ghost inverse = { λ r. record { word = of_recording r } };

    ghost inverse_ok = { λ p h i. record { word = recording_back p.word i } };
}

impl PackedRecording {
    // Packs a recording under a link.
    pub fn new(link: Link) -> PackedRecording
        requires { of_link link + 1 < 2 ^ 32 }
        ensures { result ≡ Some link }
    {
        match link {
            Some(row) => PackedRecording { word: row + 2 },
            None => PackedRecording { word: 1 },
        }
    }

    // The link, where there was a recording.
    pub fn get(self) -> Option<Link>
        ensures { result ≡ self }
    {
        match self.word {
            0 => None,
            1 => Some(None),
            word => Some(Some(word - 2)),
        }
    }
}

// An epoch, or none: 0 for none, since epochs count from 1.
#[derive(Clone, Copy, Default, PartialEq)]
pub struct PackedEpoch {
    word: u32,
}

impl Model for PackedEpoch {
    ghost use Rattle.std.specs.Prelude.{ℕ, Option};
    ghost use Rattle.hir.specs.Packed.{epoch_of, of_epoch, epoch_back};

    ghost Value = { Option ℕ };

    ghost view = { λ p. epoch_of p.word };

    ghost inverse = { λ e. record { word = of_epoch e } };

    ghost inverse_ok = { λ p h i. record { word = epoch_back p.word i } };
}

impl PackedEpoch {
    // Packs an epoch; epoch 0 is none.
    pub fn new(epoch: u32) -> PackedEpoch
        ensures { result ≡ epoch_of epoch }
    {
        PackedEpoch { word: epoch }
    }

    // The epoch.
    pub fn get(self) -> Option<u32>
        ensures { result ≡ self }
    {
        match self.word {
            0 => None,
            epoch => Some(epoch),
        }
    }
}
