//! Vertices of faces and edges in rising order, by which the same point is found again.

ghost use Rattle.std.specs.Prelude.{◌≡◌, [], ◌∷◌};
ghost use Rattle.plain_lists.specs.Lists.{inserted, sorted};

/// Two numbers, the smaller one first.
pub(crate) fn rising_two(ends: [u32; 2]) -> [u32; 2]
    ensures { result ≡ sorted ends }
{
    let [a, b] = ends;
    if a <= b { [a, b] } else { [b, a] }
}

/// Four numbers, rising.
pub(crate) fn rising_four(corners: [u32; 4]) -> [u32; 4]
    ensures { result ≡ sorted corners }
{
    let [a, b, c, d] = corners;
    into_three(a, into_two(b, rising_two([c, d])))
}

/// Two rising numbers with a third one among them, rising.
fn into_two(x: u32, rising: [u32; 2]) -> [u32; 3]
    ensures { result ≡ inserted x rising }
{
    let [a, b] = rising;
    if x <= a {
        [x, a, b]
    } else if x <= b {
        [a, x, b]
    } else {
        [a, b, x]
    }
}

/// Three rising numbers with a fourth one among them, rising.
fn into_three(x: u32, rising: [u32; 3]) -> [u32; 4]
    ensures { result ≡ inserted x rising }
{
    let [a, b, c] = rising;
    if x <= a {
        [x, a, b, c]
    } else if x <= b {
        [a, x, b, c]
    } else if x <= c {
        [a, b, x, c]
    } else {
        [a, b, c, x]
    }
}
