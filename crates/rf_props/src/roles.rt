//! Lists of carriers that take a kind's roles, filled up to four.

ghost use Rattle.std.specs.Prelude.{◌≡◌, ◌+◌, ◌<◌, ◌≤◌, ℕ, insert, length, take, slice_index_or};

/// The others with the target in one more role. The roles beyond these are 0.
pub fn with_target(others: &[usize], place: usize, target: usize) -> [usize; 4]
    requires others { length others.now < 4 }
    requires place { place ≤ length others.now }
    ensures { take (length others.now + 1) result ≡ insert others.now place target }
{
    let mut roles = [target; 4];
    roles[..place].copy_from_slice(&others[..place]);
    roles[place + 1..others.len() + 1].copy_from_slice(&others[place..]);
    roles
}

/// The roles as a hint has them: those beyond the given are 0.
pub fn padded(roles: &[usize]) -> [u32; 4]
    requires few { length roles.now ≤ 4 }
    requires small { (i : ℕ) → i < length roles.now → slice_index_or roles.now i 0 < 4294967296 }
    ensures same { take (length roles.now) result ≡ roles.now }
    ensures zero { (i : ℕ) → length roles.now ≤ i → slice_index_or result i 0 ≡ 0 }
{
    let mut all = [0; 4];
    for (i, role) in roles.iter().enumerate() {
        all[i] = *role as u32;
    }
    all
}
