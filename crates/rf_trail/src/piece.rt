//! Pieces of domains: what is taken out is kept as ranges, and put back from there.

ghost use Rattle.std.specs.Prelude.{◌≡◌, ◌-◌, ◌<◌, ◌≤◌, length, reverse, drop, OnOk, OnErr};
ghost use Rattle.rf_domain.specs.Indices.{between};
ghost use Rattle.rf_domain.specs.Sets.{size_of, sizes, has, without};
ghost use Rattle.rf_trail.specs.Pieces.{ArePieces, Gains};

use rf_base::NoMemory;
use rf_domain::Domains;

/// A range of indices, all of which an entry took out.
#[derive(Clone, Copy)]
pub struct Piece {
    pub carrier: usize,
    pub lo: u32,
    pub hi: u32,
}

/// Takes out what is left of the indices from `lo` to `hi`, as pieces. After want of memory some of the pieces are made.
fn take_pieces(
    domains: &mut Domains,
    pieces: &mut Vec<Piece>,
    carrier: usize,
    lo: u32,
    hi: u32,
) -> Result<(), NoMemory>
    requires ordered { lo ≤ hi }
    requires in_range { hi < size_of (sizes domains.old) carrier }
    requires pieces { ArePieces domains.old pieces.old.items }
    ensures sizes { sizes domains.new ≡ sizes domains.old }
    ensures pieces { ArePieces domains.new pieces.new.items }
    ensures more { Gains pieces.old.items pieces.new.items }
    ensures ok { OnOk result (has domains.new ≡ without (has domains.old) carrier (between lo hi)) }
{
    let mut from = lo;
    while let Some(first) = domains.next(carrier, from) {
        if first > hi {
            break;
        }
        let last = domains.run_end(carrier, first).min(hi);
        pieces.push(Piece {
            carrier,
            lo: first,
            hi: last,
        })?;
        domains.remove_range(carrier, first, last);
        from = last + 1;
    }
    Ok(())
}

/// Puts back the last pieces, and leaves the first, as many as `count` says.
pub fn give_back(domains: &mut Domains, pieces: &mut Vec<Piece>, count: usize)
    requires count { count ≤ length pieces.old.items }
    requires pieces { ArePieces domains.old pieces.old.items }
    ensures sizes { sizes domains.new ≡ sizes domains.old }
    ensures pieces { ArePieces domains.new pieces.new.items }
    ensures left { reverse pieces.new.items ≡ drop (length pieces.old.items - count) (reverse pieces.old.items) }
{
    while pieces.len() > count {
        if let Some(piece) = pieces.pop() {
            domains.put_back(piece.carrier, piece.lo, piece.hi);
        }
    }
}

/// Takes out what is left of the indices from `lo` to `hi`, as pieces, or changes nothing.
pub fn take_out(
    domains: &mut Domains,
    pieces: &mut Vec<Piece>,
    carrier: usize,
    lo: u32,
    hi: u32,
) -> Result<(), NoMemory>
    requires ordered { lo ≤ hi }
    requires in_range { hi < size_of (sizes domains.old) carrier }
    requires pieces { ArePieces domains.old pieces.old.items }
    ensures sizes { sizes domains.new ≡ sizes domains.old }
    ensures pieces { ArePieces domains.new pieces.new.items }
    ensures more { Gains pieces.old.items pieces.new.items }
    ensures ok { OnOk result (has domains.new ≡ without (has domains.old) carrier (between lo hi)) }
    ensures err { OnErr result (reverse pieces.new.items ≡ reverse pieces.old.items) }
{
    let before = pieces.len();
    if take_pieces(domains, pieces, carrier, lo, hi).is_err() {
        give_back(domains, pieces, before);
        return Err(NoMemory);
    }
    Ok(())
}
