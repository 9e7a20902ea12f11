//! The Hamming distance of two vectors of bits, kept in words of 64.
#![tactic(auto)]

ghost use Rattle.std.specs.Prelude.{◌≡◌, ◌≤◌, ◌*◌, ◌%◌, length};
ghost use Rattle.vs_defs.specs.Words.{words_ham};

#[cfg(test)]
mod tests;

/// How many places of `a` and `b` differ, at most 32,768. Two vectors of one dimension have equal
/// unused places, so the number is that of their differing components.
pub fn distance(a: &[u64], b: &[u64]) -> u32
    requires same { length a.now ≡ length b.now }
    requires few { length a.now ≤ 512 }
    ensures { result ≡ words_ham a.now b.now }
{
    let whole = a.len() - a.len() % 4;
    let (fours_a, rest_a) = a.split_at(whole);
    let (fours_b, rest_b) = b.split_at(whole);
    by_fours(fours_a, fours_b) + one_by_one(rest_a, rest_b)
}

// Four sums that don't wait for one another, so that a processor takes them at once.
fn by_fours(a: &[u64], b: &[u64]) -> u32
    requires same { length a.now ≡ length b.now }
    requires few { length a.now ≤ 512 }
    requires fours { length a.now % 4 ≡ 0 }
    ensures counted { result ≡ words_ham a.now b.now }
    ensures small { result ≤ 64 * length a.now }
{
    let mut first: u32 = 0;
    let mut second: u32 = 0;
    let mut third: u32 = 0;
    let mut fourth: u32 = 0;
    for four in 0..a.len() / 4 {
        let at = four * 4;
        first += (a[at] ^ b[at]).count_ones();
        second += (a[at + 1] ^ b[at + 1]).count_ones();
        third += (a[at + 2] ^ b[at + 2]).count_ones();
        fourth += (a[at + 3] ^ b[at + 3]).count_ones();
    }
    first + second + third + fourth
}

fn one_by_one(a: &[u64], b: &[u64]) -> u32
    requires same { length a.now ≡ length b.now }
    requires few { length a.now ≤ 512 }
    ensures counted { result ≡ words_ham a.now b.now }
    ensures small { result ≤ 64 * length a.now }
{
    let mut total: u32 = 0;
    for i in 0..a.len() {
        total += (a[i] ^ b[i]).count_ones();
    }
    total
}
