//! Which stretches of the band are still left to anyone.

ghost use Rattle.std.specs.Prelude.{◌≡◌, ℕ, ◌<◌, ◌≤◌, true, false, length, IfOk, pos, ◌≤ℤ◌, ◌<ℤ◌};
ghost use Rattle.rf_log.specs.Case.{counts_of};
ghost use Rattle.rf_problem.specs.Problem.{case_of};
ghost use Rattle.rf_props.specs.Sweeps.{left};
ghost use Rattle.rf_props.specs.Ranges.{IsIn};
ghost use Rattle.rf_props.specs.Live.{cell_of, is_marked, IsMarkedAt, AreMarked};

use rf_base::NoMemory;
use rf_domain::Domains;
use rf_problem::Problem;
use rf_trail::Trail;
use std::alloc::Global;
use std::marker::Model;

/// How many cells there are.
pub const CELLS: u32 = 65_536;

/// Marks of the frequencies that may still be left to some carrier. A cell is 2^shift kilohertz wide, the first takes all
/// frequencies below it too, and the last one all above it. A frequency whose cell has no mark is left to no carrier.
#[derive(Drop)]
pub struct Live {
    base: u32,
    shift: u32,
    cells: Domains,
}

impl Model for Live {
    ghost use Rattle.rf_props.specs.Live.{Marks, AreCells};

    ghost Value = { Marks };

    ghost view = { λ l. record { base = l.base; shift = l.shift; cells = l.cells } };

    ghost invariant = { λ l. AreCells (record { base = l.base; shift = l.shift; cells = l.cells }) };
}

impl Live {
    /// The frequencies of all indices that are left. `NoMemory` where no memory is found.
    pub fn of(alloc: Global, problem: &Problem, trail: &Trail) -> Result<Live, NoMemory>
        requires { trail.now.counts ≡ counts_of (case_of problem.now) }
        ensures { IfOk result (λ live. AreMarked (case_of problem.now) (left trail.now) live) }
    {
        let mut live = Live::unmarked(alloc, problem)?;
        for carrier in 0..problem.carriers() {
            live.mark_left(problem, trail, carrier);
        }
        Ok(live)
    }

    // No marks, in cells that are as narrow as the band of the problem lets them be. The first cell lies below the band, so
    // that it never has a mark: many products lie there.
    fn unmarked(alloc: Global, problem: &Problem) -> Result<Live, NoMemory> {
        let mut cells = Domains::new(alloc, &[CELLS])?;
        cells.remove_range(0, 0, CELLS - 1);
        let (least, greatest) = band(problem);
        let shift = halvings(greatest.saturating_sub(least));
        Ok(Live {
            base: least.saturating_sub(1 << shift),
            shift,
            cells,
        })
    }

    // Marks what is left to a carrier, by runs.
    fn mark_left(&mut self, problem: &Problem, trail: &Trail, carrier: usize)
        requires counts { trail.now.counts ≡ counts_of (case_of problem.now) }
        requires carrier { carrier < length problem.now.carriers }
        ensures marked { IsMarkedAt (case_of problem.now) (left trail.now) self.new carrier }
        ensures kept { (f : ℕ) → is_marked self.old f ≡ true → is_marked self.new f ≡ true }
    {
        let freqs = problem.freqs(carrier);
        let domains = trail.domains();
        let mut from = 0;
        while let Some(first) = domains.next(carrier, from) {
            let last = domains.run_end(carrier, first);
            self.mark(freqs[first as usize], freqs[last as usize]);
            from = last + 1;
        }
    }

    // Marks the frequencies from `lo` to `hi` kilohertz.
    fn mark(&mut self, lo: u32, hi: u32)
        requires { lo ≤ hi }
        ensures marked { (f : ℕ) → lo ≤ f → f ≤ hi → is_marked self.new f ≡ true }
        ensures kept { (f : ℕ) → is_marked self.old f ≡ true → is_marked self.new f ≡ true }
    {
        let first = self.cell(lo);
        let last = self.cell(hi);
        self.cells.put_back(0, first, last);
    }

    fn cell(&self, freq: u32) -> u32
        ensures { result ≡ cell_of self.now freq }
    {
        (freq.saturating_sub(self.base) >> self.shift).min(CELLS - 1)
    }

    /// Whether no frequency from `lo` to `hi` kilohertz is marked.
    pub fn is_far(&self, lo: i64, hi: i64) -> bool
        ensures { result ≡ true → (f : ℕ) → f ≤ 10000000 → IsIn lo hi f → is_marked self.now f ≡ false }
    {
        let from = self.cell(frequency_at(lo));
        match self.cells.next(0, from) {
            Some(cell) => cell > self.cell(frequency_at(hi)),
            None => true,
        }
    }

    /// Takes out the marks of the cells that lie from `lo` to `hi` kilohertz.
    pub fn unmark(&mut self, lo: i64, hi: i64)
        ensures { (f : ℕ) → f ≤ 10000000 → ¬ IsIn lo hi f → is_marked self.old f ≡ true → is_marked self.new f ≡ true }
    {
        let first = self.cell(frequency_below(lo)) + 1;
        let end = self.cell(frequency_above(hi));
        if first >= end {
            return;
        }
        self.cells.remove_range(0, first, end - 1);
    }
}

// The frequency nearest to a whole number of kilohertz.
fn frequency_at(khz: i64) -> u32
    ensures below { (f : ℕ) → f ≤ 10000000 → khz ≤ℤ pos f → result ≤ f }
    ensures above { (f : ℕ) → f ≤ 10000000 → pos f ≤ℤ khz → f ≤ result }
{
    khz.clamp(0, 10_000_000) as u32
}

// A frequency that is at least each one below `lo` kilohertz.
fn frequency_below(lo: i64) -> u32
    ensures { (f : ℕ) → f ≤ 10000000 → pos f <ℤ lo → f ≤ result }
{
    lo.clamp(1, 10_000_001) as u32 - 1
}

// A frequency that is at most each one above `hi` kilohertz.
fn frequency_above(hi: i64) -> u32
    ensures { (f : ℕ) → f ≤ 10000000 → hi <ℤ pos f → result ≤ f }
{
    (hi.clamp(-1, 9_999_999) + 1) as u32
}

// The least and the greatest frequency of a problem.
fn band(problem: &Problem) -> (u32, u32) {
    let mut least = u32::MAX;
    let mut greatest = 0;
    for carrier in 0..problem.carriers() {
        let freqs = problem.freqs(carrier);
        least = least.min(*freqs.first().unwrap_or(&least));
        greatest = greatest.max(*freqs.last().unwrap_or(&greatest));
    }
    (least, greatest)
}

// How often a width is halved until it is below the number of cells.
fn halvings(width: u32) -> u32
    ensures { result < 32 }
{
    (32 - width.leading_zeros()).saturating_sub(16)
}
