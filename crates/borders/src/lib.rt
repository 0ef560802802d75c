// The longest border of each prefix of a pattern, by one value that is carried along: Morris and Pratt's.
// Time O(l) for a pattern of l tags, with fewer than 2 l comparisons of two tags.
#![tactic(auto)]

ghost use Rattle.std.specs.Prelude.{◌≡◌, ◌<◌, length};
ghost use Rattle.borders.specs.Border.{comparisons, Bordered};

// The borders of u's prefixes to the array, by the prefix's length: the number of comparisons of two tags. The border of the first j tags is
// lengthened where the next tag follows it in u too, and otherwise shortened to its own border.
pub fn find_borders(u: &[u8], borders: &mut [usize]) -> usize
    requires { length u.now < length borders.old }
    ensures { (result ≡ comparisons u.now) × Bordered u.now borders.old borders.new }
{
    borders[0] = 0;
    if u.is_empty() {
        return 0;
    }
    borders[1] = 0;
    let mut border = 0;
    let mut count = 0;
    let mut j = 1;
    // Stays: j does not move where the border is shortened, so that a `for` over it would need a second loop within: no plainer.
    while j < u.len() {
        count += 1;
        if u[j] == u[border] {
            border += 1;
        } else if 0 < border {
            border = borders[border];
            continue;
        }
        j += 1;
        borders[j] = border;
    }
    count
}
