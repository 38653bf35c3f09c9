// What the source over the content of a T section gives.
ghost use Rattle.image_source.specs.Sections.{GivesItsTree};

// The rows of its tree, for every section that an image may hold.
pub fn every_section_gives_its_tree()
    ensures { GivesItsTree }
{}
