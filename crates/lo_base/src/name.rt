ghost use Rattle.std.specs.Prelude.{◌≡◌, ◌↔◌, IsTrue};
ghost use Rattle.lo_base.specs.Name.{IsName, starts_name, continues_name};

/// The most bytes of a name.
pub const NAME_BYTES: usize = 63;

/// Whether scripts can spell the bytes as a name.
pub fn is_name(bytes: &[u8]) -> bool
    ensures { IsTrue result ↔ IsName bytes.now }
{
    let Some((first, others)) = bytes.split_first() else {
        return false;
    };
    starts_name(*first) && others.len() < NAME_BYTES && others.iter().all(|b| continues_name(*b))
}

fn starts_name(b: u8) -> bool
    ensures { result ≡ starts_name b }
{
    matches!(b, b'a'..=b'z' | b'_')
}

fn continues_name(b: u8) -> bool
    ensures { result ≡ continues_name b }
{
    starts_name(b) || b.is_ascii_digit()
}
