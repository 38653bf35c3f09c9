// An image, loaded and encoded again.
use image_encode::encode::encode;
use image_encode::fault::EncodeFault;
use image_encode::panel::Panel;
use image_source::source::ImageSource;
use image_tables::fault::LoadFault;
use image_tables::load::load;
use report::fault::Fault;
use std::alloc::{AllocError, Global};

// Whether the encoder makes the same bytes of the tables and trees that an image holds.
pub fn is_encoded_alike(heap: Global, image: &[u8]) -> Result<bool, Fault> {
    let tables = load(heap, image).map_err(|fault| match fault {
        LoadFault::Memory => Fault::Memory(AllocError),
        LoadFault::Limit | LoadFault::Image(_) => Fault::Line,
    })?;
    let mut panels = Vec::new(heap);
    for panel in &tables.panels {
        panels.push(Panel {
            parameters: panel.parameters,
            tree: ImageSource::new(panel.content),
        })?;
    }
    let encoded = encode(
        heap,
        &tables.identifiers,
        &tables.scopes,
        &tables.functions,
        &tables.pool,
        &mut panels,
    );
    match encoded {
        Ok(bytes) => Ok(bytes.as_slice() == image),
        Err(EncodeFault::Unfit) => Ok(false),
        Err(EncodeFault::Memory) => Err(Fault::Memory(AllocError)),
    }
}
