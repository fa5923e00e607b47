//! Singer's sets of numbers: no difference of two of them comes twice.

use rf_base::NoMemory;
use std::alloc::Global;

/// Rows of numbers below a prime: the prime, and by what the last number, the one before it and the one before that are multiplied
/// in the sum that is the next.
static ROWS: [[usize; 4]; 27] = [
    [5, 1, 0, 1],
    [7, 0, 1, 2],
    [11, 4, 0, 1],
    [13, 1, 0, 2],
    [17, 2, 1, 1],
    [19, 2, 1, 2],
    [23, 1, 1, 1],
    [29, 0, 1, 1],
    [31, 0, 1, 3],
    [37, 0, 1, 2],
    [41, 0, 1, 1],
    [43, 1, 1, 3],
    [47, 0, 1, 1],
    [53, 2, 0, 1],
    [59, 1, 0, 1],
    [61, 3, 0, 2],
    [67, 2, 0, 2],
    [71, 0, 1, 1],
    [73, 3, 0, 2],
    [79, 1, 0, 2],
    [83, 3, 0, 1],
    [89, 1, 1, 1],
    [97, 2, 0, 2],
    [101, 1, 0, 1],
    [103, 2, 0, 2],
    [107, 1, 0, 1],
    [109, 2, 0, 3],
];

/// A set of numbers from 0 up to its length of which no two pairs lie equally far apart, round the length too.
#[derive(Drop)]
pub struct Spread {
    pub length: usize,
    pub numbers: Vec<usize>,
}

/// The sets whose lengths are from `least` to `most`.
pub fn spreads(alloc: Global, least: usize, most: usize) -> Result<Vec<Spread>, NoMemory> {
    let mut all = Vec::new(alloc);
    for row in &ROWS {
        let length = row[0]
            .wrapping_mul(row[0])
            .wrapping_add(row[0])
            .wrapping_add(1);
        if least <= length && length <= most {
            all.push(spread_of(alloc, row, length)?)?;
        }
    }
    Ok(all)
}

// The places at which a row from 0, 0, 1 on has a 0 in front.
fn spread_of(alloc: Global, row: &[usize; 4], length: usize) -> Result<Spread, NoMemory> {
    let mut numbers = Vec::new(alloc);
    let mut last = [0, 0, 1];
    for n in 0..length {
        if last[0] == 0 {
            numbers.push(n)?;
        }
        last = [last[1], last[2], next(row, last)];
    }
    Ok(Spread { length, numbers })
}

fn next(row: &[usize; 4], last: [usize; 3]) -> usize {
    let high = row[1]
        .wrapping_mul(last[2])
        .wrapping_add(row[2].wrapping_mul(last[1]));
    high.wrapping_add(row[3].wrapping_mul(last[0])) % row[0].max(1)
}
