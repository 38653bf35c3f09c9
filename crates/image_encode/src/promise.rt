// Images and values stand one to one.
ghost use Rattle.image_encode.specs.Values.{OneValue, OneImage, LoadedEncoded, EncodedLoaded, LoadedAgain};

// Bytes are an image of at most one set of tables, parameters and rows.
pub fn images_have_one_meaning()
    ensures { OneValue }
{}

// Tables, parameters and rows have at most one image.
pub fn values_have_one_image()
    ensures { OneImage }
{}

// Loaded tables, with the sources over their trees, have the bytes that they were loaded from as their image.
pub fn loaded_tables_have_their_image()
    ensures { LoadedEncoded }
{}

// What is encoded and loaded again is the same tables, parameters and rows.
pub fn encoded_and_loaded_is_the_same()
    ensures { EncodedLoaded }
{}

// What is loaded and encoded again is the same bytes.
pub fn loaded_and_encoded_is_the_same()
    ensures { LoadedAgain }
{}
