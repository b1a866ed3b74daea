//! Asks, values and orders of tests, as short texts.
use sf_fabric::{Ask, Op, Turn};
use std::alloc::{AllocError, Global};

/// A digit, or the last number where it is none.
fn value_of(byte: u8) -> u64 {
    if byte.is_ascii_digit() {
        u64::from(byte - b'0')
    } else {
        u64::MAX
    }
}

fn op_of(byte: u8) -> Op {
    match byte {
        b's' => Op::Sum,
        b'i' => Op::Min,
        b'a' => Op::Max,
        b'o' => Op::Or,
        b'n' => Op::And,
        b'r' => Op::Replace,
        _ => Op::Load,
    }
}

/// Asks of a letter for the operation, a digit for the word and a digit for the value, with blanks
/// between them: `s05 l10`.
pub(crate) fn asks_of(alloc: Global, text: &str) -> Result<Vec<Ask>, AllocError> {
    let mut asks = Vec::new(alloc);
    for token in text.split(' ') {
        if let [op, word, value] = token.as_bytes() {
            asks.push(Ask {
                word: (value_of(*word) & 15) as u32,
                op: op_of(*op),
                value: value_of(*value),
            })?;
        }
    }
    Ok(asks)
}

/// One value for each byte that is no blank.
pub(crate) fn values_of(alloc: Global, text: &str) -> Result<Vec<u64>, AllocError> {
    let mut values = Vec::new(alloc);
    for byte in text.as_bytes() {
        if *byte != b' ' {
            values.push(value_of(*byte))?;
        }
    }
    Ok(values)
}

/// Turns of a digit for the rank and a digit for the place, with blanks between them: `10 00`.
pub(crate) fn turns_of(alloc: Global, text: &str) -> Result<Vec<Turn>, AllocError> {
    let mut turns = Vec::new(alloc);
    for token in text.split(' ') {
        if let [rank, index] = token.as_bytes() {
            turns.push(Turn {
                rank: (value_of(*rank) & 15) as u32,
                index: (value_of(*index) & 15) as u32,
            })?;
        }
    }
    Ok(turns)
}
