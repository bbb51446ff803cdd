// The line in which two texts differ.
ghost use Rattle.std.specs.Prelude.{◌≡◌, ◌≢◌, IfNone, IfSome};
ghost use Rattle.report_reader.specs.Fault.{line_of_difference, difference_from};

fn difference(a: &[u8], b: &[u8]) -> Option<u64>
    ensures { result ≡ difference_from 1 a.now b.now }
{
    let mut line = 1;
    let mut i = 0;
    while i < a.len() && i < b.len() {
        if a[i] != b[i] {
            return Some(line);
        }
        if a[i] == b'\n' {
            line += 1;
        }
        i += 1;
    }
    if a.len() == b.len() { None } else { Some(line) }
}

/// The number, from 1, of the first line in which the texts differ. `None` where they are the same. A line that one of
/// them lacks has the number that it would have.
pub fn first_difference(a: &[u8], b: &[u8]) -> Option<u64>
    ensures none { IfNone result (a.now ≡ b.now) }
    ensures differs { IfSome result (λ n. a.now ≢ b.now) }
    ensures line { IfSome result (λ n. n ≡ line_of_difference a.now b.now) }
{
    difference(a, b)
}
