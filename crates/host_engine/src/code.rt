//! What the images of a script are made of.
ghost use Rattle.std.specs.Prelude.{◌<◌, ◌≤◌, length, vec_len};
ghost use Rattle.host_engine.specs.Limits.{code_limit};

/// The bytes of an image: those of its file, or those that its text is assembled to.
#[derive(Drop)]
pub struct ImageFile {
    /// The bytes, of which there are at most 4 MiB.
    pub bytes: Vec<u8>,
    ghost short: { vec_len bytes ≤ code_limit },
}

/// A text that is still to be assembled, under the name of its image.
#[derive(Drop)]
pub struct Listing<'a> {
    /// The name.
    pub name: &'a str,
    /// The text.
    pub text: &'a str,
    ghost short: { length text.now < 4294967295 },
}

/// What an image is made of.
#[derive(Drop)]
pub enum Code<'a> {
    /// The bytes of its file.
    File(ImageFile),
    /// Its text.
    Text(Listing<'a>),
}
