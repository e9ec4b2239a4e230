// A page of the plain pool.
ghost use Rattle.std.specs.Prelude.{◌≡◌, length};

/// A page of 512 words.
#[derive(Drop)]
pub struct Page {
    pub words: [u64; 512],
    pub ghost full: { length words ≡ 512 },
}
