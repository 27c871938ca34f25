//! Up to three parts of a slice, lent at once.

ghost use Rattle.std.specs.Prelude.{◌≡◌, ◌+◌, ◌≤◌, length, take, drop, is_some, IfSome};
ghost use Rattle.std.specs.Borrow.{sem};
ghost use Rattle.bitvec_span.specs.Lending.{LendsThree, KeptIf, LendsNamed};
ghost use Rattle.bitvec_span.specs.Pieces.{names_of};

/// The first `i` elements, the next `n`, and the others.
///
/// When the loans end, the slice is what the three leave, one behind the other.
pub(crate) fn split_three_mut<T>(s: &mut [T], i: usize, n: usize) -> (&mut [T], &mut [T], &mut [T])
    requires { i + n ≤ length s.old }
    ensures* writes_back { sem 𝓛 (LendsThree T.row s.entry result.0 result.1 result.2) }
    ensures front { result.0.now ≡ take i s.old }
    ensures body { result.1.now ≡ take n (drop i s.old) }
    ensures back { result.2.now ≡ drop n (drop i s.old) }
{
    let (front, rest) = s.split_at_mut(i);
    let (body, back) = rest.split_at_mut(n);
    (front, body, back)
}

/// The slice itself where it is wanted; else it is let go, and stays as it is.
pub(crate) fn slice_if<T>(s: &mut [T], present: bool) -> Option<&mut [T]>
    ensures* ends { sem 𝓛 (KeptIf T.row s.entry result) }
    ensures variant { is_some result ≡ present }
    ensures value { IfSome result (λ r. r.now ≡ s.old) }
{
    if present { Some(s) } else { None }
}

/// Those of three parts of a slice, side by side, that are wanted.
pub(crate) struct Pieces<'a, T> {
    /// The first elements.
    pub front: Option<&'a mut [T]>,
    /// The elements behind these.
    pub body: Option<&'a mut [T]>,
    /// The last elements.
    pub back: Option<&'a mut [T]>,
}

/// The first `i` elements, the next `n`, and the others, each where it is wanted.
///
/// When the loans end, the slice is what these leave, one behind the other; the elements of a part
/// that is not wanted stay as they are.
pub(crate) fn pieces_mut<T>(
    s: &mut [T],
    i: usize,
    n: usize,
    front: bool,
    body: bool,
    back: bool,
) -> Pieces<'_, T>
    requires { i + n ≤ length s.old }
    ensures* ends { sem 𝓛 (LendsNamed T.row s.entry i n (names_of result)) }
    ensures front { (is_some result.front ≡ front)
        × IfSome result.front (λ r. r.now ≡ take i s.old) }
    ensures body { (is_some result.body ≡ body)
        × IfSome result.body (λ r. r.now ≡ take n (drop i s.old)) }
    ensures back { (is_some result.back ≡ back)
        × IfSome result.back (λ r. r.now ≡ drop n (drop i s.old)) }
{
    let (first, middle, last) = split_three_mut(s, i, n);
    let front = slice_if(first, front);
    let body = slice_if(middle, body);
    let back = slice_if(last, back);
    Pieces { front, body, back }
}
