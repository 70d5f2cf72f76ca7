//! Reading the numbers of a line.

use crate::fault::Fault;
use disk_model::Pick;
use std::alloc::Global;

pub(crate) fn number(word: &str) -> Result<u64, Fault> {
    word.parse::<u64>().map_err(|_| Fault::BadLine)
}

/// The number that a text begins with, and the text after it.
pub(crate) fn leading(text: &str) -> Result<(u64, &str), Fault> {
    let rest = text.trim_start_matches(|c: char| c.is_ascii_digit());
    match text.strip_suffix(rest) {
        Some(digits) => Ok((number(digits)?, rest)),
        None => Err(Fault::BadLine),
    }
}

/// The first number of `2..5`, and the one after the last; or those of `2`, which is `2..3`.
pub(crate) fn range(word: &str) -> Result<(u64, u64), Fault> {
    match word.split_once("..") {
        Some((from, to)) => Ok((number(from)?, number(to)?)),
        None => {
            let one = number(word)?;
            Ok((one, one.saturating_add(1)))
        }
    }
}

/// The numbers of a line, of which there is one at least, where `2..5` stands for 2, 3 and 4.
pub(crate) fn numbers(alloc: Global, line: &str) -> Result<Vec<u64>, Fault> {
    let mut numbers = Vec::new(alloc);
    for word in line.split_whitespace() {
        let (from, to) = range(word)?;
        for number in from..to {
            numbers.push(number)?;
        }
    }
    if numbers.is_empty() {
        return Err(Fault::BadLine);
    }
    Ok(numbers)
}

pub(crate) fn pick(word: &str) -> Result<Pick, Fault> {
    match word {
        "none" => Ok(Pick::None),
        "all" => Ok(Pick::All),
        "even" => Ok(Pick::Even),
        "torn" => Ok(Pick::Torn),
        _ => Err(Fault::BadLine),
    }
}
