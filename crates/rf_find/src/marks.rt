//! How the windows of a form are marked over the cells of one class.

/// Changes how many windows lie over each cell, where the form `coef * cell + sum` of a cell is at most `width` from 0. The
/// numbers say by how much the count of a cell differs from the one before it; the last of them is no cell's.
#[inline]
pub fn mark(rises: &mut [i32], coef: i64, sum: i64, width: i64, by: i32) {
    if width < 0 {
        return;
    }
    let low = sum.wrapping_neg().wrapping_sub(width);
    let high = width.wrapping_sub(sum);
    if high < 0 {
        return;
    }
    mark_range(rises, least_at(low, coef), greatest_at(high, coef), by);
}

// The least whole number from 0 on that is at least `low` when it is multiplied.
#[inline]
fn least_at(low: i64, coef: i64) -> i64 {
    if low <= 0 || coef <= 1 {
        return low.max(0);
    }
    low.wrapping_add(coef - 1) / coef
}

// The greatest whole number that is at most `high` when it is multiplied.
#[inline]
fn greatest_at(high: i64, coef: i64) -> i64 {
    if coef <= 1 {
        return high;
    }
    high / coef
}

// Changes the count of the cells from `low` to `high`.
#[inline]
fn mark_range(rises: &mut [i32], low: i64, high: i64, by: i32) {
    let cells = rises.len().saturating_sub(1);
    let (Ok(low), Ok(high)) = (usize::try_from(low), usize::try_from(high)) else {
        return;
    };
    if low > high || low >= cells {
        return;
    }
    let end = if high < cells { high + 1 } else { cells };
    rise(rises, low, by);
    rise(rises, end, by.wrapping_neg());
}

#[inline]
fn rise(rises: &mut [i32], cell: usize, by: i32) {
    if let Some(number) = rises.get_mut(cell) {
        *number = number.wrapping_add(by);
    }
}
