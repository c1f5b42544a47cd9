// Many bytes.
use std::alloc::{AllocError, Global};

/// So many bytes, of which each differs from the one before it.
pub fn long_bytes(alloc: Global, count: u32) -> Result<Vec<u8>, AllocError> {
    let mut bytes = Vec::new(alloc);
    for k in 0..count {
        bytes.push((k % 251) as u8)?;
    }
    Ok(bytes)
}
