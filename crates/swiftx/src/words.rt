//! The words that the program is started with.
use std::alloc::{AllocError, Global};
use std::env::FillError;
use std::rt::Env;

/// The words after the program's own name. One that is not UTF-8 is handed on as the empty word,
/// which no command takes.
pub fn words_after_name<R: Env>(runtime: &R, alloc: Global) -> Result<Vec<String>, AllocError> {
    let mut words = Vec::new(alloc);
    for place in 1..usize::MAX {
        match word_at(runtime, alloc, place)? {
            Some(word) => words.push(word)?,
            None => break,
        }
    }
    Ok(words)
}

// The word at a place, and None behind the last.
fn word_at<R: Env>(runtime: &R, alloc: Global, place: usize) -> Result<Option<String>, AllocError> {
    let mut size = 256_usize;
    for _ in 0..usize::BITS {
        let mut buffer = vec![in alloc; 0; size]?;
        match runtime.arg(place, &mut buffer) {
            Ok(length) => return Ok(Some(text_of(alloc, &buffer[..length])?)),
            Err(FillError::NotPresent) => return Ok(None),
            Err(FillError::TooLong) => size = size.saturating_add(size),
        }
    }
    Err(AllocError)
}

fn text_of(alloc: Global, bytes: &[u8]) -> Result<String, AllocError> {
    match str::from_utf8(bytes) {
        Ok(text) => String::from_str(alloc, text),
        Err(_) => Ok(String::new(alloc)),
    }
}
