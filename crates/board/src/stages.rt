// The stages of a board's life before it is live. A live board's stage is what a live machine holds.

// No image yet.
#[derive(Clone, Copy)]
pub struct Empty;

// Taking the record lines of an image.
#[derive(Clone, Copy)]
pub struct Loading {
    // an end record was taken
    pub ended: bool,
}

// Holding an image, and not started.
#[derive(Clone, Copy)]
pub struct Ready;
