// The header of a file, as it is written.
ghost use Rattle.std.specs.Prelude.{◌≡◌, length, IfOk};
ghost use Rattle.dkv_journal.specs.Records.{first_layout};
ghost use Rattle.dkv_files.specs.Files.{head_bytes};
ghost use Rattle.dkv_files.specs.Creating.{new_head};

use dkv_base::NoMemory;
use std::alloc::Global;

/// What a header tells beside the layout and the image's length.
#[derive(Clone, Copy, Debug, PartialEq, Eq)]
pub struct FileHead {
    /// Which of two files is used: the one with the greater generation. From 1 on, below 2^63.
    pub generation: u64,
    /// Whose database it is.
    pub id: [u8; 16],
    /// What signs its tokens.
    pub secret: [u8; 32],
    /// The number of the commit that the image was made after, below 2^63.
    pub n: u64,
    /// The moment of the image, in milliseconds since 1970. At most `MAX_MOMENT`.
    pub now: u64,
}

/// The header of a file of the first format, for an image of so many bytes: its 95 bytes behind the file's gate. Takes memory for
/// them.
pub fn spell_head(alloc: Global, head: FileHead, image: u64) -> Result<Vec<u8>, NoMemory>
    ensures spelled { IfOk result (λ v. v.items ≡ head_bytes first_layout head image) }
    ensures id { length head.id ≡ 16 }
    ensures secret { length head.secret ≡ 32 }
{
    let mut bytes = Vec::new(alloc);
    bytes.extend_from_slice(b"DKVFILE")?;
    bytes.extend_from_slice(&[1, 0, 0, 0, 0, 0, 0, 0])?;
    bytes.extend_from_slice(&head.generation.to_le_bytes())?;
    bytes.extend_from_slice(&head.id)?;
    bytes.extend_from_slice(&head.secret)?;
    bytes.extend_from_slice(&image.to_le_bytes())?;
    bytes.extend_from_slice(&head.n.to_le_bytes())?;
    bytes.extend_from_slice(&head.now.to_le_bytes())?;
    Ok(bytes)
}

// The header of a new file, with the empty image.
pub(crate) fn spell_new(alloc: Global, id: [u8; 16], secret: [u8; 32]) -> Result<Vec<u8>, NoMemory>
    ensures spelled { IfOk result (λ v. v.items
        ≡ head_bytes first_layout (new_head id secret) 16) }
    ensures long { IfOk result (λ v. length v.items ≡ 95) }
    ensures id { length id ≡ 16 }
    ensures secret { length secret ≡ 32 }
{
    let head = FileHead {
        generation: 1,
        id,
        secret,
        n: 0,
        now: 0,
    };
    spell_head(alloc, head, 16)
}
