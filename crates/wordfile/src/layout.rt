ghost use Rattle.std.specs.Prelude.{◌≡◌, ◌%◌, length, IfOk, MatchOption, ◌≢◌};
ghost use Rattle.wordfile.specs.Layout.{file_bytes};

use std::alloc::{AllocError, Global};

// The words in the bytes of a file; nothing where the bytes are no whole number of words.
pub fn words_in(heap: Global, bytes: &[u8]) -> Result<Option<Vec<u32>>, AllocError>
    ensures { IfOk result (λ o. MatchOption o (length bytes.now % 4 ≢ 0) (λ ws. file_bytes ws.items ≡ bytes.now)) }
{
    let (fours, rest) = bytes.as_chunks::<4>();
    let mut words = Vec::new(heap);
    for four in fours {
        words.push(u32::from_be_bytes(*four))?;
    }
    if rest.is_empty() {
        Ok(Some(words))
    } else {
        Ok(None)
    }
}

// The bytes of a file that holds these words.
pub fn bytes_of(heap: Global, words: &[u32]) -> Result<Vec<u8>, AllocError>
    ensures { IfOk result (λ bytes. bytes.items ≡ file_bytes words.now) }
{
    let mut bytes = Vec::new(heap);
    for word in words {
        bytes.extend_from_slice(&word.to_be_bytes())?;
    }
    Ok(bytes)
}
