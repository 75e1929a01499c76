//! Digests of a file's pieces.

ghost use Rattle.std.specs.Prelude.{◌≡◌, ◌^◌, ◌<◌, ◌≤◌, option_copied};
ghost use Rattle.iiif_fixity.specs.Pieces.{listed};

/// The SHA-256 digests of a file that is cut into pieces of one size, in the order of the pieces.
#[derive(Drop)]
pub struct PieceDigests {
    /// The bytes of a piece. The last of a file may be shorter.
    pub size: u32,
    pub digests: Vec<[u8; 32]>,
    pub ghost sized: { (0 < size) × (size ≤ 2 ^ 24) },
}

impl PieceDigests {
    /// Returns the digest that is listed of a piece, counted from 0, if there is one.
    pub fn get(&self, number: u64) -> Option<&[u8; 32]>
        ensures { option_copied result ≡ listed self.now.digests.items number }
    {
        self.digests.get(number as usize)
    }
}
