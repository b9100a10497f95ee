use crate::fault::Fault;
use std::alloc::{AllocError, Global};

/// The words that a line writes into a row: the fields of a rewrite behind its place, type and subscript. Any other line writes none.
pub(crate) fn written(alloc: Global, line: &str) -> Result<Vec<u64>, Fault> {
    let mut words = Vec::new(alloc);
    let mut fields = line.split(' ');
    if fields.next() != Some("rewrite") {
        return Ok(words);
    }
    for field in fields.skip(3) {
        let word = field.parse().map_err(|_| Fault::NoNumber)?;
        words.push(word).map_err(AllocError::from)?;
    }
    Ok(words)
}
