// The order with which a search begins.
ghost use Rattle.std.specs.Prelude.{◌≤◌, length};

/// The order up to `last` whose residual is the least at the front of the samples, by its sum without signs. The search
/// begins with it; what the search finds does not depend on it.
pub fn likely_order(samples: &[i32], last: u32) -> u32
    ensures { result ≤ last }
{
    least_of(sizes(samples, samples.len().min(1028)), last)
}

/// The sums of the residuals of the orders 0 to 4 without signs, over the samples before an end and behind four. Sums
/// may wrap.
fn sizes(samples: &[i32], end: usize) -> [u64; 5]
    requires { end ≤ length samples.now }
{
    let mut none = 0u64;
    let mut one = 0u64;
    let mut two = 0u64;
    let mut three = 0u64;
    let mut four = 0u64;
    for j in 4..end {
        let a = samples[j].wrapping_sub(samples[j - 1]);
        let b = samples[j - 1].wrapping_sub(samples[j - 2]);
        let c = samples[j - 2].wrapping_sub(samples[j - 3]);
        let d = samples[j - 3].wrapping_sub(samples[j - 4]);
        let second = a.wrapping_sub(b);
        let middle = b.wrapping_sub(c);
        let third = second.wrapping_sub(middle);
        let earlier = middle.wrapping_sub(c.wrapping_sub(d));
        none = none.wrapping_add(samples[j].unsigned_abs() as u64);
        one = one.wrapping_add(a.unsigned_abs() as u64);
        two = two.wrapping_add(second.unsigned_abs() as u64);
        three = three.wrapping_add(third.unsigned_abs() as u64);
        four = four.wrapping_add(third.wrapping_sub(earlier).unsigned_abs() as u64);
    }
    [none, one, two, three, four]
}

/// The first place of the least of the sums up to `last`.
fn least_of(sums: [u64; 5], last: u32) -> u32
    ensures { result ≤ last }
{
    let mut best = 0;
    for order in 1..last.min(4) + 1 {
        if sums[order as usize] < sums[best as usize] {
            best = order;
        }
    }
    best
}
