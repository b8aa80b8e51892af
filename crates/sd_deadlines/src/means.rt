//! The mean of responses, as a fraction in lowest terms.
//!
//! Source: arithmetic (the greatest common divisor).

ghost use Rattle.std.specs.Prelude.{◌≡◌, ◌≤◌, ◌<◌};
ghost use Rattle.sd_deadlines.specs.Means.{common_divisor, divides_both, divisor_after, divisor_up_to, fraction, mean_of};

use sd_statistics::Summary;

/// So many ticks for so many jobs, which have no common divisor but 1.
#[derive(Clone, Copy)]
pub struct Mean {
    pub ticks: u64,
    pub jobs: u64,
}

fn divides_both(a: u64, b: u64, d: u64) -> bool
    requires { 0 < d }
    ensures { result ≡ divides_both a b d }
{
    a % d == 0 && b % d == 0
}

// The number behind i, where it divides both; else the one before.
fn divisor_after(a: u64, b: u64, before: u64, i: u64) -> u64
    requires room { i < b }
    requires some { 1 ≤ before }
    ensures value { result ≡ divisor_after a b before i }
    ensures some { 1 ≤ result }
{
    if divides_both(a, b, i + 1) {
        i + 1
    } else {
        before
    }
}

// The greatest number that divides both, of which the second is not 0.
#[tactic(auto, using(crate::proofs::MeanLemmas::divisor_more), unfolding(crate::specs::Means::divisor_up_to))]
fn common_divisor(a: u64, b: u64) -> u64
    ensures value { result ≡ common_divisor a b }
    ensures some { 1 ≤ result }
{
    let mut divisor = 1;
    for i in 0..b {
        divisor = divisor_after(a, b, divisor, i);
    }
    divisor
}

fn fraction(a: u64, b: u64, d: u64) -> Mean
    requires { 1 ≤ d }
    ensures { result ≡ fraction a b d }
{
    Mean {
        ticks: a / d,
        jobs: b / d,
    }
}

/// The mean of spans with this summary; none where there are no spans.
pub fn mean_of(x: Summary) -> Option<Mean>
    ensures { result ≡ mean_of x }
{
    if x.number == 0 {
        return None;
    }
    let divisor = common_divisor(x.ticks, x.number);
    Some(fraction(x.ticks, x.number, divisor))
}
