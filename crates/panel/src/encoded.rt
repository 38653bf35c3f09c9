// The panel as an image.
use crate::tables::{PARAMETERS, POOL, identifiers, scopes};
use image_encode::encode::encode;
use image_encode::fault::EncodeFault;
use image_encode::panel::Panel;
use reactive::table::{RowEntry, TableSource};
use std::alloc::Global;

// The image of the panel's tables and rows.
pub fn image_of(heap: Global, rows: &[RowEntry]) -> Result<Vec<u8>, EncodeFault> {
    let mut panels = [Panel {
        parameters: PARAMETERS,
        tree: TableSource::new(rows, &POOL),
    }];
    encode(heap, &identifiers(), &scopes(), &[], &POOL, &mut panels)
}
