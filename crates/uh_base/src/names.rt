//! Names that a user gives.
ghost use Rattle.std.specs.Prelude.{◌≡◌};
ghost use Rattle.std.specs.List.{list_all};
ghost use Rattle.uh_base.specs.Names.{is_name, is_name_byte};

fn is_name_byte(byte: u8) -> bool
    ensures { result ≡ is_name_byte byte }
{
    byte >= b'a' && byte <= b'z' || byte >= b'0' && byte <= b'9' || byte == b'_'
}

fn are_name_bytes(bytes: &[u8]) -> bool
    ensures { result ≡ list_all is_name_byte bytes.now }
{
    bytes.iter().all(|b| is_name_byte(*b))
}

/// Whether a text is a name: 1 to 32 of `a` to `z`, `0` to `9` and `_`.
pub fn is_name(name: &str) -> bool
    ensures { result ≡ is_name name.now }
{
    let bytes = name.as_bytes();
    bytes.len() >= 1 && bytes.len() <= 32 && are_name_bytes(bytes)
}
