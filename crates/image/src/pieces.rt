// What stands in an image sixteen times, one after the other: the slots, each in nine bytes, and their counts, each in eight.
ghost use Rattle.std.specs.Prelude.{◌≡◌, ℕ, List, ◌++◌, ◌*◌, ◌<◌, ◌≤◌, length, drop};
ghost use Rattle.image.specs.Image.{series};
ghost use Rattle.image.specs.Loading.{series_in};

// R81: what stands in so many bytes.
pub(crate) trait Piece: Copy {
    ghost WIDTH: { ℕ };

    // the bytes that it is written as, and what is read from those in front
    ghost bytes_of: { Self → List ℕ };

    ghost found: { List ℕ → Self };

    const WIDTH: usize;

    fn get(s: &[u8]) -> Self
        requires { WIDTH ≤ length s.now }
        ensures { result ≡ found s.now };

    fn put(self, out: &mut [u8])
        requires { WIDTH ≤ length out.old }
        ensures { out.new ≡ bytes_of self ++ drop WIDTH out.old };

    ghost wide: { (x : Self) → length (bytes_of x) ≡ WIDTH };
}

// R81: sixteen from the front on.
pub(crate) fn pieces_in<T: Piece>(s: &[u8]) -> [T; 16]
    requires { T.WIDTH * 16 ≤ length s.now }
    ensures { result ≡ series_in T.WIDTH T.found 16 s.now }
{
    std::array::from_fn(
        |k|
            requires { (k < 16) × (T.WIDTH * 16 ≤ length s.now) }
            ensures { result ≡ T.found (drop (T.WIDTH * k) s.entry.now) }
        { T::get(&s[T::WIDTH * k..]) },
    )
}

// R81: sixteen from the buffer's start on.
pub(crate) fn put_pieces<T: Piece>(out: &mut [u8], xs: [T; 16])
    requires { T.WIDTH * 16 ≤ length out.old }
    ensures { out.new ≡ series T.bytes_of xs ++ drop (T.WIDTH * 16) out.old }
{
    for (k, x) in xs.iter().enumerate() {
        let at = T::WIDTH * k;
        x.put(&mut out[at..]);
    }
}
